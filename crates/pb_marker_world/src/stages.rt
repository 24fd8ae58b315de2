/// How far an entry of a store has come with a shared object.
///
/// The way of an entry is in docs/MODEL.md, "Marker world".
#[derive(Clone, Copy, Debug, PartialEq, Eq)]
pub enum Stage {
    /// The entry stands, and nothing of it is in the bucket.
    Intended,
    /// The object is put, and its creator's marker isn't yet.
    Put,
    /// The own marker is put, and the lender's marker isn't checked yet.
    Marked,
    /// The store relies on the object.
    Held,
    /// The store doesn't rely on the object, and its own marker may still stand.
    Loose,
    /// The own marker is gone, and the object's markers aren't counted yet.
    Bare,
    /// No marker was counted, so the object is to be deleted.
    Counted,
    /// The entry is through with the bucket.
    Ended,
}
