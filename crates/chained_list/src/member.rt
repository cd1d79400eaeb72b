// One member place.
ghost use Rattle.std.specs.Prelude.{◌≡◌, ◌≢◌, Some};
ghost use Rattle.chained_list.specs.Links.{link_of};

/// One member place: whether it stands, the places behind and before it, and its tag.
/// A free place links to the next free place; a link to place 0 leads nowhere.
// Links and tags are narrow fields of one lent struct, so a link to none is the number 0 and whether it stands is a flag.
#[derive(Clone, Copy, Default)]
pub struct Member {
    pub used: bool,
    pub next: u16,
    pub previous: u16,
    pub tag: u32,
}

impl Member {
    /// The place behind it, if it links to one.
    pub fn behind(self) -> Option<usize>
        ensures link { link_of result ≡ self.next }
        ensures inner { result ≢ Some 0 }
    {
        if self.next == 0 {
            None
        } else {
            Some(self.next as usize)
        }
    }
}
