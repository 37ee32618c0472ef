use pattern_fit::{FitFail, Key, Keys, Pattern, PatternItem, Rest, fit};
use std::alloc::Global;
use std::process::Abort;
use std::test::Fail;
use sv_source::{Boxed, Text};
use sv_types::{Member, Members, SvType};

fn bit() -> SvType {
    SvType::Scalar {
        four: true,
        signed: false,
    }
}

fn nibble(alloc: Global) -> Result<SvType, Fail> {
    Ok(SvType::PackedArray {
        left: 3,
        right: 0,
        signed: false,
        item: Boxed::new(alloc, bit())?,
    })
}

fn member(alloc: Global, name: &[u8], of: SvType) -> Result<Member, Fail> {
    Ok(Member {
        name: Text::from_bytes(alloc, name)?,
        of,
    })
}

fn structure(id: u32, members: Vec<Member>) -> SvType {
    SvType::Struct {
        id,
        packed: true,
        signed: false,
        members: Members::from_vec(members),
    }
}

// struct packed { logic [3:0] lo; }
fn inner(alloc: Global, id: u32) -> Result<SvType, Fail> {
    let mut members = Vec::new(alloc);
    members.push(member(alloc, b"lo", nibble(alloc)?)?)?;
    Ok(structure(id, members))
}

// struct packed { logic [3:0] hi; struct packed { logic [3:0] lo; } in; }
fn nested(alloc: Global) -> Result<SvType, Fail> {
    let mut outer = Vec::new(alloc);
    outer.push(member(alloc, b"hi", nibble(alloc)?)?)?;
    outer.push(member(alloc, b"in", inner(alloc, 1)?)?)?;
    Ok(structure(0, outer))
}

// logic [3:0] v [1:3]
fn array(alloc: Global) -> Result<SvType, Fail> {
    Ok(SvType::UnpackedArray {
        left: 1,
        right: 3,
        item: Boxed::new(alloc, nibble(alloc)?)?,
    })
}

// A key of a word: `.` for none, a number for an index, else a member's name.
fn key(alloc: Global, word: &str) -> Result<Key, Fail> {
    if word == "." {
        return Ok(Key::Place);
    }
    match word.parse() {
        Ok(index) => Ok(Key::Index(index)),
        Err(_) => Ok(Key::Member(Text::from_bytes(alloc, word.as_bytes())?)),
    }
}

fn keys(alloc: Global, words: &str) -> Result<Keys, Fail> {
    let mut made = Vec::new(alloc);
    for word in words.split(' ') {
        if !word.is_empty() {
            made.push(key(alloc, word)?)?;
        }
    }
    Ok(Keys::from_vec(made))
}

// What each member takes: a digit for an item, `d` for the value of `default`, `s` for a pattern of it; `-` where nothing fits.
fn taken(alloc: Global, t: &SvType, words: &str, rest: Rest) -> Result<Vec<u8>, Fail> {
    let p = Pattern {
        keys: keys(alloc, words)?,
        rest,
    };
    let mut shown = Vec::new(alloc);
    if p.keys.len() < 1000 {
        match fit(alloc, t, &p) {
            Ok(items) => {
                for item in items.as_slice() {
                    shown.push(match item {
                        PatternItem::Item(n) => b"0123456789"[(*n % 10) as usize],
                        PatternItem::Default => b'd',
                        PatternItem::Spread => b's',
                    })?;
                }
            }
            Err(FitFail::NoFit) => shown.push(b'-')?,
            Err(FitFail::Memory) => shown.push(b'm')?,
        }
    }
    Ok(shown)
}

// Keys, whether there is a `default`, and what the members of the struct and the elements of the array take.
const CASES: &[(&str, bool, &str, &str)] = &[
    (". .", false, "01", "-"),
    (". . .", false, "-", "012"),
    (". .", true, "-", "-"),
    ("in hi", false, "10", "-"),
    ("hi", true, "0s", "-"),
    ("", true, "ds", "ddd"),
    ("hi hi in", false, "-", "-"),
    ("hi", false, "-", "-"),
    ("hi lo", true, "-", "-"),
    ("hi .", false, "-", "-"),
    ("3 1 2", false, "-", "120"),
    ("2", true, "-", "d0d"),
    ("0", true, "-", "-"),
];

#[test]
fn items_of_members(rt: HostRuntime) -> Result<(), Fail> {
    let alloc = rt.alloc();
    let (nested, array) = (nested(alloc)?, array(alloc)?);
    for (words, default, members, elements) in CASES {
        for (t, want) in [(&nested, members), (&array, elements)] {
            let rest = if *default { Rest::Plain } else { Rest::Absent };
            assert_eq!(rt; taken(alloc, t, words, rest)?.as_slice(), want.as_bytes());
        }
    }
    assert_eq!(rt;
        taken(alloc, &bit(), "", Rest::Plain)?.as_slice(),
        b"-".as_slice()
    );
    Ok(())
}

// A value of a struct's own type is given to it whole; that of another declaration, or of one with other members, is not.
#[test]
fn own_type(rt: HostRuntime) -> Result<(), Fail> {
    let alloc = rt.alloc();
    let cases = [
        (inner(alloc, 1)?, "0d"),
        (inner(alloc, 2)?, "0s"),
        (structure(1, Vec::new(alloc)), "0s"),
    ];
    for (of, want) in cases {
        assert_eq!(rt;
            taken(alloc, &nested(alloc)?, "hi", Rest::Typed(of))?.as_slice(),
            want.as_bytes()
        );
    }
    Ok(())
}
