//! The laws of calls that read the entries of a log. Each is the contract of a function that does nothing but call other laws.

ghost use Rattle.libwagtenib.specs.WatchLaws.{ReportsNameTheWaitingHead, ComparedTilesAreJudged, JudgedLeavesAreSearched};

/// A report on entries has the timestamp of the head that waited for them.
pub fn reports_name_the_waiting_head()
    ensures { ReportsNameTheWaitingHead }
{}

/// The comparison of a data tile with its name and the entries that are written of its bytes are about one list of leaves. If a caller passes those from the next entry
/// on to the monitor, it is they that are judged.
pub fn compared_tiles_are_judged()
    ensures { ComparedTilesAreJudged }
{
    ct_data_tiles::laws::data_tiles_stand_apart();
}

/// The names that calls find in the part of a leaf that `wagtenib_decode_leaf` names are those of the leaf's own certificate or TBSCertificate.
pub fn judged_leaves_are_searched()
    ensures { JudgedLeavesAreSearched }
{
    ct_codec::laws::leaves_stand_apart();
    ct_codec::laws::leaf_texts_have_no_fault();
}
