//! New tables as an edit says them: physical and virtual ones alike.
ghost use Rattle.std.specs.Prelude.{◌≡◌, true, IfErr, IfOk, OnOk};
ghost use Rattle.pb_keys.specs.Span.{span_of, is_span};
ghost use Rattle.pb_version.specs.Items.{physical_form, virtual_form};
ghost use Rattle.pb_version.specs.Judged.{IsRefused};

use super::scans::size_of;
use super::{Broken, Table};
use pb_edit::{Created, Physical, Virtual};
use pb_keys::{Bytes, Span, SpanError, View};
use std::alloc::{AllocError, Global};

/// An item of an edit that makes a table.
pub(crate) trait TableItem: Sized {
    ghost use Rattle.std.specs.Prelude.{◌≡◌, true, IfErr, IfOk, OnOk};
    ghost use Rattle.pb_version.specs.Items.{ItemForm};
    ghost use Rattle.pb_version.specs.Judged.{IsRefused};
    ghost use Rattle.pb_version.specs.Rules.{is_plain_view};

    /// What such an item says, and of which tables there is one.
    ghost form: { ItemForm Self };

    fn level(&self) -> u8
        ensures { result ≡ form.level self.now };

    fn number(&self) -> u64
        ensures { result ≡ form.number self.now };

    fn rank(&self) -> u64
        ensures { result ≡ form.rank self.now };

    /// Whether it stands below the other.
    fn is_below(&self, other: &Self) -> bool
        ensures { result ≡ form.is_below self.now other.now };

    /// Whether the table has such an item.
    fn is_of(table: &Table) -> bool
        ensures { result ≡ form.is_of table.now };

    /// The item of a table of this level.
    fn of_table(alloc: Global, level: u8, table: &Table) -> Result<Self, AllocError>
        ensures ok { IfOk result (λ item. item ≡ form.item level table.now) };

    /// The table that it makes where these backings may be shown, or V3.
    fn to_table(&self, alloc: Global, backings: &[Created]) -> Result<Table, Broken>
        ensures ok { IfOk result (λ t. t ≡ form.table backings.now self.now) }
        ensures in_form { OnOk result (is_plain_view (form.table backings.now self.now).view ≡ true) }
        ensures refused { IfErr result (IsRefused (is_plain_view (form.table backings.now self.now).view)) };
}

/// The span with these ends, or V3.
fn span_of(alloc: Global, lo: &Bytes, hi: &Bytes) -> Result<Span, Broken>
    ensures ok { IfOk result (λ span. span ≡ span_of lo.now hi.now) }
    ensures in_form { OnOk result (is_span (span_of lo.now hi.now) ≡ true) }
    ensures refused { IfErr result (IsRefused (is_span (span_of lo.now hi.now))) }
{
    match Span::new(alloc, lo.as_slice(), hi.as_slice()) {
        Ok(span) => Ok(span),
        Err(SpanError::BadSpan) => Err(Broken::V3),
        Err(SpanError::NoMemory) => Err(Broken::NoMemory),
    }
}

impl TableItem for Physical {
    ghost form = { physical_form };

    fn level(&self) -> u8 {
        self.level
    }

    fn number(&self) -> u64 {
        self.number
    }

    fn rank(&self) -> u64 {
        self.rank
    }

    fn is_below(&self, other: &Self) -> bool {
        self.level < other.level || (self.level == other.level && self.number < other.number)
    }

    fn is_of(table: &Table) -> bool {
        !table.is_virtual
    }

    fn of_table(alloc: Global, level: u8, table: &Table) -> Result<Self, AllocError> {
        let lo = Bytes::new(alloc, table.view.bounds.lo())?;
        let hi = Bytes::new(alloc, table.view.bounds.hi())?;
        Ok(Physical {
            level,
            number: table.number,
            rank: table.rank,
            size: table.size,
            lo,
            hi,
        })
    }

    fn to_table(&self, alloc: Global, _backings: &[Created]) -> Result<Table, Broken> {
        let bounds = span_of(alloc, &self.lo, &self.hi)?;
        let prefix = Bytes::new(alloc, b"")?;
        let suffix = Bytes::new(alloc, b"")?;
        Ok(Table {
            number: self.number,
            rank: self.rank,
            backing: self.number,
            size: self.size,
            view: View {
                bounds,
                prefix,
                suffix,
            },
            is_virtual: false,
        })
    }
}

impl TableItem for Virtual {
    ghost form = { virtual_form };

    fn level(&self) -> u8 {
        self.level
    }

    fn number(&self) -> u64 {
        self.number
    }

    fn rank(&self) -> u64 {
        self.rank
    }

    fn is_below(&self, other: &Self) -> bool {
        self.level < other.level || (self.level == other.level && self.number < other.number)
    }

    fn is_of(table: &Table) -> bool {
        table.is_virtual
    }

    fn of_table(alloc: Global, level: u8, table: &Table) -> Result<Self, AllocError> {
        let lo = Bytes::new(alloc, table.view.bounds.lo())?;
        let hi = Bytes::new(alloc, table.view.bounds.hi())?;
        let prefix = table.view.prefix.copy(alloc)?;
        let suffix = table.view.suffix.copy(alloc)?;
        Ok(Virtual {
            level,
            number: table.number,
            rank: table.rank,
            backing: table.backing,
            lo,
            hi,
            prefix,
            suffix,
        })
    }

    fn to_table(&self, alloc: Global, backings: &[Created]) -> Result<Table, Broken> {
        let bounds = span_of(alloc, &self.lo, &self.hi)?;
        if !self.prefix.as_slice().is_empty() || !self.suffix.as_slice().is_empty() {
            return Err(Broken::V3);
        }
        let prefix = self.prefix.copy(alloc)?;
        let suffix = self.suffix.copy(alloc)?;
        Ok(Table {
            number: self.number,
            rank: self.rank,
            backing: self.backing,
            size: size_of(backings, self.backing).unwrap_or(0),
            view: View {
                bounds,
                prefix,
                suffix,
            },
            is_virtual: true,
        })
    }
}
