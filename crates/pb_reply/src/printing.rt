ghost use Rattle.std.specs.Prelude.{◌≡◌, ◌++◌, OnOk, OnErr, length, take};
ghost use Rattle.std.specs.List.{flat_map};
ghost use Rattle.pb_reply.specs.Printed.{kind_word, name_line, pair_line, printed, refusal_line, table_line};
ghost use Rattle.pb_reply.specs.Refusals.{carried};

use crate::pieces::Piece::{Number, Plain, Word};
use crate::pieces::append;
use crate::{LevelRow, Pair, Refusal, Reply, Text};
use std::alloc::{AllocError, Global};

/// Appends what is printed for the reply, line ends included. Without memory `out` is as before.
///
/// The texts stand in docs/FORMATS.md, "Replies".
pub fn print(_alloc: Global, reply: &Reply, out: &mut Vec<u8>) -> Result<(), AllocError>
    ensures ok { OnOk result (out.new.items ≡ out.old.items ++ printed reply.now) }
    ensures err { OnErr result (out.new.items ≡ out.old.items) }
{
    let before = out.len();
    if let Err(error) = append_reply(out, reply) {
        // A part of a reply is none.
        out.truncate(before);
        return Err(error);
    }
    Ok(())
}

fn append_reply(out: &mut Vec<u8>, reply: &Reply) -> Result<(), AllocError>
    ensures ok { OnOk result (out.new.items ≡ out.old.items ++ printed reply.now) }
    ensures err { OnErr result (take (length out.old.items) out.new.items ≡ out.old.items) }
{
    match reply {
        Reply::Rows(pairs) => append_rows(out, pairs.as_slice()),
        Reply::Levels(tables) => append_tables(out, tables.as_slice()),
        Reply::Objects(names) => append_names(out, names.as_slice()),
        Reply::Refused(refusal) => append_refusal(out, refusal),
        Reply::Opened(count) => append(out, &[Plain("opened "), Number(*count), Plain("\n")]),
        Reply::Closed => append(out, &[Plain("closed\n")]),
        Reply::Stopped => append(out, &[Plain("stopped\n")]),
        Reply::Accepted(count) => append(out, &[Plain("ok "), Number(*count), Plain("\n")]),
        Reply::Value(value) => append(out, &[Plain("value "), Word(value.as_slice()), Plain("\n")]),
        Reply::Absent => append(out, &[Plain("none\n")]),
        Reply::Done => append(out, &[Plain("done\n")]),
        Reply::Table(name) => append(out, &[Plain("table "), Word(name.as_slice()), Plain("\n")]),
        Reply::Exported => append(out, &[Plain("exported\n")]),
        Reply::Lent(name) => append(out, &[Plain("lent "), Word(name.as_slice()), Plain("\n")]),
        Reply::Dropped => append(out, &[Plain("dropped\n")]),
        Reply::Pinned(name) => append(out, &[Plain("pinned "), Word(name.as_slice()), Plain("\n")]),
        Reply::Unpinned => append(out, &[Plain("unpinned\n")]),
        Reply::Started => append(out, &[Plain("started\n")]),
        Reply::Working => append(out, &[Plain("working\n")]),
        Reply::Released => append(out, &[Plain("released\n")]),
        Reply::Calls(calls) => append(out, &[Plain("calls "), Number(*calls), Plain("\n")]),
    }
}

#[tactic(auto, using(crate::proofs::Growth::front_before))]
fn append_rows(out: &mut Vec<u8>, pairs: &[Pair]) -> Result<(), AllocError>
    ensures ok { OnOk result (out.new.items ≡ out.old.items ++ printed (Reply.Rows pairs.now)) }
    ensures err { OnErr result (take (length out.old.items) out.new.items ≡ out.old.items) }
{
    for pair in pairs {
        append_pair(out, pair)?;
    }
    append(
        out,
        &[Plain("rows "), Number(pairs.len() as u64), Plain("\n")],
    )?;
    Ok(())
}

fn append_pair(out: &mut Vec<u8>, pair: &Pair) -> Result<(), AllocError>
    ensures ok { OnOk result (out.new.items ≡ out.old.items ++ pair_line pair.now) }
    ensures err { OnErr result (take (length out.old.items) out.new.items ≡ out.old.items) }
{
    append(
        out,
        &[
            Word(pair.key.as_slice()),
            Plain(" "),
            Word(pair.value.as_slice()),
            Plain("\n"),
        ],
    )
}

#[tactic(auto, using(crate::proofs::Growth::front_before))]
fn append_tables(out: &mut Vec<u8>, tables: &[LevelRow]) -> Result<(), AllocError>
    ensures ok { OnOk result (out.new.items ≡ out.old.items ++ printed (Reply.Levels tables.now)) }
    ensures err { OnErr result (take (length out.old.items) out.new.items ≡ out.old.items) }
{
    for table in tables {
        append_table(out, table)?;
    }
    append(
        out,
        &[Plain("tables "), Number(tables.len() as u64), Plain("\n")],
    )?;
    Ok(())
}

fn append_table(out: &mut Vec<u8>, table: &LevelRow) -> Result<(), AllocError>
    ensures ok { OnOk result (out.new.items ≡ out.old.items ++ table_line table.now) }
    ensures err { OnErr result (take (length out.old.items) out.new.items ≡ out.old.items) }
{
    append(
        out,
        &[
            Plain("L"),
            Number(table.level as u64),
            Plain(" "),
            Number(table.number),
            Plain(" "),
            Word(table.lo.as_slice()),
            Plain(" "),
            Word(table.hi.as_slice()),
            Plain(" "),
            Plain(kind_of(table.is_virtual)),
            Plain(" "),
            Number(table.backing),
            Plain("\n"),
        ],
    )
}

fn kind_of(is_virtual: bool) -> &'static str
    ensures { result.now ≡ kind_word is_virtual }
{
    if is_virtual { "virtual" } else { "physical" }
}

#[tactic(auto, using(crate::proofs::Growth::front_before))]
fn append_names(out: &mut Vec<u8>, names: &[Text]) -> Result<(), AllocError>
    ensures ok { OnOk result (out.new.items ≡ out.old.items ++ printed (Reply.Objects names.now)) }
    ensures err { OnErr result (take (length out.old.items) out.new.items ≡ out.old.items) }
{
    for name in names {
        append_name(out, name)?;
    }
    append(
        out,
        &[Plain("objects "), Number(names.len() as u64), Plain("\n")],
    )?;
    Ok(())
}

fn append_name(out: &mut Vec<u8>, name: &Text) -> Result<(), AllocError>
    ensures ok { OnOk result (out.new.items ≡ out.old.items ++ name_line name.now) }
    ensures err { OnErr result (take (length out.old.items) out.new.items ≡ out.old.items) }
{
    append(out, &[Word(name.as_slice()), Plain("\n")])
}

#[tactic(auto, using(crate::proofs::Growth::front_before))]
fn append_refusal(out: &mut Vec<u8>, refusal: &Refusal) -> Result<(), AllocError>
    ensures ok { OnOk result (out.new.items ≡ out.old.items ++ refusal_line refusal.now) }
    ensures err { OnErr result (take (length out.old.items) out.new.items ≡ out.old.items) }
{
    append(
        out,
        &[
            Plain("refused "),
            Number(refusal.number()),
            Plain(" "),
            Plain(refusal.name()),
        ],
    )?;
    append_carried(out, refusal)?;
    append(out, &[Plain("\n")])?;
    Ok(())
}

fn append_carried(out: &mut Vec<u8>, refusal: &Refusal) -> Result<(), AllocError>
    ensures ok { OnOk result (out.new.items ≡ out.old.items ++ carried refusal.now) }
    ensures err { OnErr result (take (length out.old.items) out.new.items ≡ out.old.items) }
{
    match refusal {
        Refusal::Overlap(first, second) => append(
            out,
            &[Plain(" "), Number(*first), Plain(" "), Number(*second)],
        ),
        Refusal::Outside(value)
        | Refusal::TooMany(value)
        | Refusal::SuffixClash(value)
        | Refusal::WrongStore(value)
        | Refusal::Dropped(value)
        | Refusal::BadTable(value) => append(out, &[Plain(" "), Number(*value)]),
        Refusal::Gone(name) | Refusal::Damaged(name) | Refusal::Missing(name) => {
            append(out, &[Plain(" "), Plain(name.as_str())])
        }
        _ => Ok(()),
    }
}
