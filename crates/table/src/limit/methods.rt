ghost use Rattle.std.specs.Prelude.{◌≡◌};
ghost use Rattle.table.specs.Limits.{Limited};

use crate::limit::Limit;

/// The most records that a sheet's limit allows.
pub const MOST_RECORDS: u16 = 512;

impl Limit {
    /// This limit, or none where it is not 1 to 512.
    // A constructor with an Option, as the library's NonZero types have.
    pub fn new(value: u16) -> Option<Limit>
        ensures { Limited value result }
    {
        if value < 1 || value > MOST_RECORDS {
            return None;
        }
        Some(Limit { value })
    }

    pub fn value(self) -> u16
        ensures { result ≡ self.value }
    {
        self.value
    }
}
