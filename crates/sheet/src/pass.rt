// Passes: who holds one may make the calls that its sort allows. A pass bears the number of its sheet. It is moved, and only a
// call makes one out of another. The three sorts are three types, so that a call with a pass of another sort does not build.
ghost use Rattle.std.specs.Prelude.{◌≡◌};

/// The pass of a sheet that is settled: its result and its lines may be read.
#[derive(Drop)]
pub struct SettledPass(pub(crate) u16);

/// The pass of a sheet at rest that is not settled.
#[derive(Drop)]
pub struct UnsettledPass(pub(crate) u16);

/// The pass of a sheet that is open. It cannot lapse: only settle and withdraw spend it.
pub struct OpenPass(pub(crate) u16);

impl UnsettledPass {
    /// The pass of a sheet that was just made.
    pub(crate) fn first(sheet: u16) -> UnsettledPass
        ensures { result.0 ≡ sheet }
    {
        UnsettledPass(sheet)
    }

    /// The pass of the same sheet, opened.
    pub(crate) fn opened(self) -> OpenPass
        ensures { result.0 ≡ self.0 }
    {
        let Self(number) = self;
        OpenPass(number)
    }
}

impl OpenPass {
    /// The pass of the same sheet, settled.
    pub(crate) fn settled(self) -> SettledPass
        ensures { result.0 ≡ self.0 }
    {
        let Self(number) = self;
        SettledPass(number)
    }

    /// The pass of the same sheet, at rest and not settled.
    pub(crate) fn unsettled(self) -> UnsettledPass
        ensures { result.0 ≡ self.0 }
    {
        let Self(number) = self;
        UnsettledPass(number)
    }
}
