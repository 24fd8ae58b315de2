/// What a machine has come to by a call.
#[derive(Clone, Copy, Debug, PartialEq, Eq)]
pub enum Phase {
    /// There is another call to make.
    More,
    /// The store holds the object.
    Held,
    /// The lender's marker wasn't there, so the object may be gone; the store's own marker still stands.
    Gone,
    /// The store has let go, and a marker of another entry keeps the object.
    Left,
    /// The store has let go, and the object was the last one's: it is deleted.
    Freed,
}
