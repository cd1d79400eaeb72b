// What an order is.
ghost use Rattle.std.specs.Prelude.{◌≡◌, Bool};
ghost use Rattle.queue.specs.Order.{Lawful};

/// An order on one kind of element: which elements belong, and which stands before which.
pub trait Order {
    /// The kind of element that is ordered.
    type Element: Copy;

    /// Which elements belong.
    ghost belongs: { Self → Self.Element → Type 0 };

    /// Whether the one stands before the other.
    ghost precedes: { Self → Self.Element → Self.Element → Bool };

    /// Whether a stands before b; left open where one of them does not belong.
    fn before(&self, a: &Self::Element, b: &Self::Element) -> bool
        ensures { belongs self.now a.now → belongs self.now b.now
            → result ≡ precedes self.now a.now b.now };

    /// The laws, among those that belong.
    ghost lawful: { (o : Self) → Lawful (belongs o) (precedes o) };
}
