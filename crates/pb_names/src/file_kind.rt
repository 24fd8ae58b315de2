/// What a numbered file of a folder keeps.
#[derive(Clone, Copy, Debug, PartialEq, Eq)]
pub enum FileKind {
    Manifest,
    Catalogue,
    Log,
    Table,
}
