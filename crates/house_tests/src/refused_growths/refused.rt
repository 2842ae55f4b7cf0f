use std::test::Fail;

// The calls that were refused memory in this run.
#[derive(Clone, Copy)]
pub(crate) struct Refused {
    count: u32,
    call: &'static str,
}

impl Refused {
    pub(crate) fn new() -> Refused {
        Refused {
            count: 0,
            call: "nothing",
        }
    }

    // Records this call as refused.
    pub(crate) fn tell(&mut self, call: &'static str) {
        self.count = self.count.saturating_add(1);
        self.call = call;
    }

    // Returns the call that was refused, if there is at most one.
    fn at_most_one(&self) -> Option<&'static str> {
        if self.count <= 1 {
            Some(self.call)
        } else {
            None
        }
    }

    // Prints which call was refused.
    pub(crate) fn say<R: Print>(&self, rt: &R) -> Result<(), Fail> {
        let call = self.at_most_one().ok_or("two calls were refused")?;
        println!(rt; "refused: {call}")?;
        Ok(())
    }
}
