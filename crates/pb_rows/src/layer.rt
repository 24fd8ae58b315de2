ghost use Rattle.std.specs.Prelude.{◌≡◌, ◌↔◌, IfOk, OnOk, IsOk, All, ℕ};
ghost use Rattle.pb_rows.specs.Layer.{IsLayer, AreApart, Rise, IsFirstFall, layer_of, IsShortRow};
ghost use Rattle.pb_rows.specs.Found.{as_verdict};
ghost use Rattle.pb_rows.specs.Hull.{hull_of};
ghost use Rattle.pb_rows.specs.Verdict.{verdict};

use super::check::{are_apart, first_fall};
use super::hull::{either_of, hull_of_dels, hull_of_rows};
use super::look::{found_among, found_in, row_of};
use super::{Found, Row};
use pb_keys::{Key, List, Span, copy_all};
use std::alloc::{AllocError, Global};
use std::marker::Model;

/// Deletions of spans, and rows, which come first: a deletion doesn't hide a row of its own layer.
///
/// The spans ascend, neither overlapping nor touching, and the rows' keys ascend. Contracts see a layer as its two lists:
/// docs/MODEL.md, "Layers".
#[derive(Debug, Drop)]
pub struct Layer {
    dels: Vec<Span>,
    rows: Vec<Row>,
}

/// Some layers in order.
pub type Layers = List<Layer>;

/// Why there is no layer.
#[derive(Clone, Copy, Debug, PartialEq, Eq, thiserror::Error)]
pub enum RowsError {
    #[error("the deletions don't ascend, or they overlap or touch")]
    BadDels,
    #[error("row {0} isn't above the one before")]
    BadRow(usize),
    #[error("out of memory")]
    NoMemory,
}

impl Model for Layer {
    ghost use Rattle.pb_rows.specs.Layer.{KeyLayer, IsLayer, layer_of};

    ghost Value = { KeyLayer };

    ghost view = { λ l. layer_of l.dels.items l.rows.items };

    ghost invariant = { λ l. IsLayer (layer_of l.dels.items l.rows.items) };
}

impl Layer {
    /// The layer of these spans and rows. It takes no memory.
    pub fn new(_alloc: Global, dels: Vec<Span>, rows: Vec<Row>) -> Result<Layer, RowsError>
        requires { All IsShortRow rows.items }
        ensures ok { IfOk result (λ layer. layer ≡ layer_of dels.items rows.items) }
        ensures in_form { OnOk result (IsLayer (layer_of dels.items rows.items)) }
        ensures bad_dels { (result ≡ Err RowsError.BadDels) ↔ ¬ (AreApart dels.items) }
        ensures bad_row { (at : ℕ) → (result ≡ Err (RowsError.BadRow at)) ↔ (AreApart dels.items × IsFirstFall rows.items at) }
        ensures taken { AreApart dels.items → Rise rows.items → IsOk result }
    {
        if !are_apart(&dels) {
            return Err(RowsError::BadDels);
        }
        match first_fall(&rows) {
            Some(at) => Err(RowsError::BadRow(at)),
            None => Ok(Layer { dels, rows }),
        }
    }

    /// The layer of two lists that are known to be in form, without a look at them.
    pub fn from_parts(dels: Vec<Span>, rows: Vec<Row>) -> Layer
        requires { IsLayer (layer_of dels.items rows.items) }
        ensures { result ≡ layer_of dels.items rows.items }
    {
        Layer { dels, rows }
    }

    /// The spans whose keys the layer deletes.
    pub fn dels(&self) -> &[Span]
        ensures value { result.now ≡ self.now.dels }
        ensures in_form { IsLayer self.now }
    {
        self.dels.as_slice()
    }

    /// The rows, by ascending keys.
    pub fn rows(&self) -> &[Row]
        ensures value { result.now ≡ self.now.rows }
        ensures in_form { IsLayer self.now }
    {
        self.rows.as_slice()
    }

    /// Its spans and its rows. It takes no memory.
    pub fn into_parts(self) -> (Vec<Span>, Vec<Row>)
        ensures dels { result.0.items ≡ self.dels }
        ensures rows { result.1.items ≡ self.rows }
        ensures in_form { IsLayer self }
    {
        let Layer { dels, rows } = self;
        (dels, rows)
    }

    /// What the layer has of this key, by halving over the rows and over the spans.
    pub fn get<'a>(&'a self, key: &Key) -> Found<'a>
        ensures { as_verdict result ≡ verdict self.now key.now }
    {
        match row_of(self.rows.as_slice(), key) {
            Some(row) => found_in(row),
            None => found_among(self.dels.as_slice(), key),
        }
    }

    /// From the least prefix or span's start to the greatest span's end or least end above a prefix; None exactly for
    /// the empty layer.
    pub fn hull(&self, alloc: Global) -> Result<Option<Span>, AllocError>
        ensures ok { IfOk result (λ hull. hull ≡ hull_of self.now) }
    {
        let dels = hull_of_dels(alloc, self.dels.as_slice())?;
        let rows = hull_of_rows(alloc, self.rows.as_slice())?;
        let hull = either_of(alloc, dels, rows)?;
        Ok(hull)
    }

    /// Another value of the same layer.
    pub fn copy(&self, alloc: Global) -> Result<Layer, AllocError>
        ensures ok { IfOk result (λ layer. layer ≡ self.now) }
    {
        let dels = copy_all(alloc, self.dels.as_slice())?;
        let rows = copy_all(alloc, self.rows.as_slice())?;
        Ok(Layer { dels, rows })
    }
}
