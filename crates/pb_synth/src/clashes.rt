ghost use Rattle.std.specs.Prelude.{MatchOption};
ghost use Rattle.pb_synth.specs.Clash.{HasNoClash, IsFirstClash};

use pb_rows::Row;

/// The first row with the prefix of the row before: through a view with a suffix the two would be one key. It takes no
/// memory.
pub fn clash(rows: &[Row]) -> Option<usize>
    ensures { MatchOption result (HasNoClash rows.now) (IsFirstClash rows.now) }
{
    for (at, row) in rows.iter().enumerate() {
        let prefix = row.key.prefix();
        if at > 0 {
            let before = &rows[at - 1];
            if prefix == before.key.prefix() {
                return Some(at);
            }
        }
    }
    None
}
