// The texts, against worked examples.
use pb_names::{FileKind, Name, ObjectId, file, marker, object};
use pb_reply::{
    LevelRow, LevelRows, Pair, Pairs, Refusal, Reply, Status, Text, Texts, print, status_of,
};
use std::alloc::{AllocError, Global};
use std::process::Abort;
use std::test::Fail;

fn printed(alloc: Global, reply: &Reply) -> Result<String, Fail> {
    let mut out = Vec::from_slice(alloc, b"> ")?;
    print(alloc, reply, &mut out)?;
    Ok(String::from_utf8(out)?)
}

fn text(alloc: Global, word: &str) -> Result<Text, AllocError> {
    Text::new(alloc, word.as_bytes())
}

fn marker_of_four() -> Name {
    let id = ObjectId {
        creator: 1,
        number: 4,
    };
    marker(&id, 2, 7)
}

fn fourth_object() -> Name {
    let id = ObjectId {
        creator: 1,
        number: 4,
    };
    object(&id)
}

// Each refusal, in the order of the numbers.
fn refusals() -> [Refusal; 27] {
    [
        Refusal::Busy,
        Refusal::NotOpen,
        Refusal::AlreadyOpen,
        Refusal::BadKey,
        Refusal::BadSpan,
        Refusal::TooLarge,
        Refusal::NoTable,
        Refusal::Overlap(0, 1),
        Refusal::Outside(2),
        Refusal::TooMany(64),
        Refusal::NumbersSpent,
        Refusal::NoObject,
        Refusal::NotATable,
        Refusal::SuffixClash(1),
        Refusal::NoHandle,
        Refusal::Gone(marker_of_four()),
        Refusal::NoPin,
        Refusal::NameTaken,
        Refusal::WrongStore(1),
        Refusal::Damaged(file(FileKind::Manifest, 1)),
        Refusal::Missing(fourth_object()),
        Refusal::DiskFault,
        Refusal::BucketFault,
        Refusal::NoMemory,
        Refusal::Idle,
        Refusal::Dropped(9),
        Refusal::BadTable(0),
    ]
}

const REFUSED: [&str; 27] = [
    "refused 1 Busy",
    "refused 2 NotOpen",
    "refused 3 AlreadyOpen",
    "refused 4 BadKey",
    "refused 5 BadSpan",
    "refused 6 TooLarge",
    "refused 7 NoTable",
    "refused 8 Overlap 0 1",
    "refused 9 Outside 2",
    "refused 10 TooMany 64",
    "refused 11 NumbersSpent",
    "refused 12 NoObject",
    "refused 13 NotATable",
    "refused 14 SuffixClash 1",
    "refused 15 NoHandle",
    "refused 16 Gone obj/1/4.ref.2.7",
    "refused 17 NoPin",
    "refused 18 NameTaken",
    "refused 19 WrongStore 1",
    "refused 20 Damaged 1.man",
    "refused 21 Missing obj/1/4",
    "refused 22 DiskFault",
    "refused 23 BucketFault",
    "refused 24 NoMemory",
    "refused 25 Idle",
    "refused 26 Dropped 9",
    "refused 27 BadTable 0",
];

#[test]
fn each_refusal_has_its_text(rt: HostRuntime) -> Result<(), Fail> {
    for (refusal, wanted) in refusals().iter().zip(REFUSED.iter()) {
        let shown = format!(in rt.alloc(); "{refusal}")?;
        assert_eq!(rt; shown.as_str(), *wanted);
        let line = format!(in rt.alloc(); "> {wanted}\n")?;
        let got = printed(rt.alloc(), &Reply::Refused(*refusal))?;
        assert_eq!(rt; got.as_str(), line.as_str());
    }
    Ok(())
}

fn check(rt: &(impl Abort + AllocGlobal), reply: Reply, wanted: &str) -> Result<(), Fail> {
    assert_eq!(rt; printed(rt.alloc(), &reply)?.as_str(), wanted);
    Ok(())
}

#[test]
fn each_short_reply_has_its_text(rt: HostRuntime) -> Result<(), Fail> {
    let alloc = rt.alloc();
    check(&rt, Reply::Opened(0), "> opened 0\n")?;
    check(&rt, Reply::Closed, "> closed\n")?;
    check(&rt, Reply::Stopped, "> stopped\n")?;
    check(&rt, Reply::Accepted(12), "> ok 12\n")?;
    check(
        &rt,
        Reply::Value(text(alloc, "v 1%")?),
        "> value v%201%25\n",
    )?;
    check(
        &rt,
        Reply::Value(Text::new(alloc, &[0, 0x7f, 0xab])?),
        "> value %00%7f%ab\n",
    )?;
    check(&rt, Reply::Value(text(alloc, "")?), "> value %\n")?;
    check(&rt, Reply::Absent, "> none\n")?;
    check(&rt, Reply::Done, "> done\n")?;
    check(&rt, Reply::Table(text(alloc, "t")?), "> table t\n")?;
    check(&rt, Reply::Exported, "> exported\n")
}

#[test]
fn each_reply_on_handles_and_turns_has_its_text(rt: HostRuntime) -> Result<(), Fail> {
    let alloc = rt.alloc();
    check(&rt, Reply::Lent(text(alloc, "h")?), "> lent h\n")?;
    check(&rt, Reply::Dropped, "> dropped\n")?;
    check(&rt, Reply::Pinned(text(alloc, "p")?), "> pinned p\n")?;
    check(&rt, Reply::Unpinned, "> unpinned\n")?;
    check(&rt, Reply::Started, "> started\n")?;
    check(&rt, Reply::Working, "> working\n")?;
    check(&rt, Reply::Released, "> released\n")?;
    check(&rt, Reply::Calls(2), "> calls 2\n")
}

#[test]
fn rows_tables_and_objects_have_a_line_each(rt: HostRuntime) -> Result<(), Fail> {
    let alloc = rt.alloc();
    let mut pairs = Vec::new(alloc);
    pairs.push(Pair {
        key: text(alloc, "b@9")?,
        value: text(alloc, "")?,
    })?;
    check(
        &rt,
        Reply::Rows(Pairs::from_vec(pairs)),
        "> b@9 %\nrows 1\n",
    )?;
    check(
        &rt,
        Reply::Rows(Pairs::from_vec(Vec::new(alloc))),
        "> rows 0\n",
    )?;
    let mut tables = Vec::new(alloc);
    tables.push(LevelRow {
        level: 0,
        number: 7,
        lo: text(alloc, "d")?,
        hi: Text::new(alloc, b"e\0")?,
        is_virtual: true,
        backing: 4,
    })?;
    tables.push(LevelRow {
        level: 6,
        number: 9,
        lo: text(alloc, "f")?,
        hi: text(alloc, "g")?,
        is_virtual: false,
        backing: 9,
    })?;
    let listed = "> L0 7 d e%00 virtual 4\nL6 9 f g physical 9\ntables 2\n";
    check(&rt, Reply::Levels(LevelRows::from_vec(tables)), listed)?;
    let mut names = Vec::new(alloc);
    names.push(text(alloc, fourth_object().as_str())?)?;
    check(
        &rt,
        Reply::Objects(Texts::from_vec(names)),
        "> obj/1/4\nobjects 1\n",
    )
}

#[test]
fn the_worse_status_stands(rt: HostRuntime) {
    let order = [
        Status::Memory,
        Status::Device,
        Status::Damaged,
        Status::Refused,
        Status::Success,
    ];
    let replies = [
        Reply::Refused(Refusal::NoMemory),
        Reply::Refused(Refusal::BucketFault),
        Reply::Refused(Refusal::Damaged(file(FileKind::Log, 3))),
        Reply::Refused(Refusal::Busy),
        Reply::Done,
    ];
    for (place, reply) in replies.iter().enumerate() {
        assert!(rt;
            status_of(Status::Success, reply) == order[place],
            "{place}"
        );
        assert!(rt;
            status_of(Status::Memory, reply) == Status::Memory,
            "{place}"
        );
    }
    assert!(rt; status_of(Status::Damaged, &replies[1]) == Status::Device);
    assert_eq!(rt; Status::TooLong.code(), 9);
}
