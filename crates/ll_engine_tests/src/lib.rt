//! Tests of the reader by tables.
#![tactic(auto)]

#[cfg(test)]
mod tests {
    use ll_engine::{Items, Ll1, NewFail, ParseFail, Part, Row, Table, Tree};
    use std::alloc::{AllocError, Global};
    use std::test::Fail;

    /// A row of `parts`, one letter a part: a small one is a symbol, a capital one a head, and `?`, `*` and `+`
    /// before it make it optional, repeated and a chain. `!` makes the row deep.
    fn row(alloc: Global, head: u8, parts: &[u8]) -> Result<Row, AllocError> {
        let mut row = Row {
            head: u16::from(head),
            parts: Items::new(alloc),
            deep: false,
        };
        let mut mark = b' ';
        for letter in parts {
            match *letter {
                b'!' => row.deep = true,
                b'?' => mark = b'?',
                b'*' => mark = b'*',
                b'+' => mark = b'+',
                name => {
                    row.parts.push(part(mark, name))?;
                    mark = b' ';
                }
            }
        }
        Ok(row)
    }

    fn part(mark: u8, name: u8) -> Part {
        let number = u16::from(name);
        if name >= b'a' {
            return Part::Term(number);
        }
        match mark {
            b'?' => Part::Maybe(number),
            b'*' => Part::Many(number),
            b'+' => Part::Chain(number),
            _ => Part::Non(number),
        }
    }

    /// A table of rows such as `S=x?A`, with spaces between them.
    fn table(alloc: Global, text: &str) -> Result<Table, AllocError> {
        let mut table = Items::new(alloc);
        for word in text.split(' ') {
            match word.as_bytes() {
                [head, b'=', parts @ ..] => table.push(row(alloc, *head, parts)?)?,
                _ => {}
            }
        }
        Ok(table)
    }

    /// The answer of `new`: `fit`, or the number of the row that breaks the class.
    fn verdict(alloc: Global, text: &str) -> Result<String, AllocError> {
        let table = table(alloc, text)?;
        if table.len() > 65536 {
            return String::from_str(alloc, "too long");
        }
        match Ll1::new(alloc, table) {
            Ok(_) => String::from_str(alloc, "fit"),
            Err(NewFail::Memory) => String::from_str(alloc, "memory"),
            Err(NewFail::Unfit { row }) => format!(in alloc; "unfit {row}"),
        }
    }

    /// Tables, and whether they are of the class.
    const TABLES: &[(&str, &str)] = &[
        ("", "unfit 0"),
        ("S=", "fit"),
        ("S=x", "fit"),
        // two alternatives that begin with one symbol
        ("S=x S=xy", "unfit 0"),
        ("S=A A=x A=?Bx B=y", "unfit 1"),
        ("S=A A=x A=?Bz B=y", "fit"),
        // two alternatives that can be empty
        ("S=xA A= A=?B B=y", "unfit 1"),
        // a repeated part that can be empty
        ("S=*A A=?B B=y", "unfit 0"),
        ("S=x+A A=*B B=y", "unfit 0"),
        ("S=x?A A=*B B=y", "fit"),
        // left recursion, also behind a part that can be empty
        ("S=A A=Ax A=y", "unfit 1"),
        ("S=A A=?BSz A=w B=y", "unfit 0"),
        ("S=A A=xSz A=w", "fit"),
        // a head with no finite text, and one with no row
        ("S=?A A=xA", "unfit 1"),
        ("S=x A=y?B", "unfit 1"),
        // a part whose symbol comes behind it
        ("S=?Ax A=x", "unfit 0"),
        ("S=Ax A=?B?C B=x C=y", "unfit 0"),
        ("S=Ax A=y?B B=x", "unfit 1"),
        ("S=?A?Ay A=x", "fit"),
        // the `else` that belongs to the nearest condition
        ("S=xS?E S=y E=zS", "fit"),
        ("S=xS*Ez S=y E=zS", "unfit 0"),
    ];

    #[test]
    fn the_first_row_that_breaks_the_class(rt: HostRuntime) -> Result<(), Fail> {
        for (text, wanted) in TABLES {
            assert_eq!(rt; verdict(rt.alloc(), text)?.as_str(), *wanted, "{text}");
        }
        Ok(())
    }

    /// Writes a tree: a leaf as the number of its symbol, a node as `row(kids)`.
    fn show(out: &mut String, tree: &Tree) -> Result<(), AllocError> {
        match tree {
            Tree::Leaf(at) => {
                write!(out, "{at} ")?;
            }
            Tree::Node { row, kids } => {
                write!(out, "r{row}( ")?;
                for kid in kids.as_slice() {
                    show(out, kid)?;
                }
                out.push_str(") ")?;
            }
        }
        Ok(())
    }

    fn answer(alloc: Global, reader: &Ll1, text: &str, limit: u32) -> Result<String, AllocError> {
        let mut symbols = Vec::new(alloc);
        for letter in text.as_bytes() {
            symbols.push(u16::from(*letter))?;
        }
        if symbols.len() >= 4_294_967_295 {
            return String::from_str(alloc, "too long");
        }
        match reader.parse(symbols.as_slice(), limit) {
            Ok(tree) => {
                let mut out = String::new(alloc);
                show(&mut out, &tree)?;
                Ok(out)
            }
            Err(ParseFail::Memory) => String::from_str(alloc, "memory"),
            Err(ParseFail::NoText { at }) => format!(in alloc; "no text at {at}"),
            Err(ParseFail::Deep { at }) => format!(in alloc; "deep at {at}"),
        }
    }

    /// A sum is a chain of negations with `p` between them, a negation begins with `m`, and `x` is a name, with
    /// an `l` behind it or not; `b` and `e` are brackets. Nesting counts sums, negations and turns of a chain.
    const SUMS: &str = "S=E E=!N+T T=pN N=!mN N=P P=bEe P=x?L L=l";

    /// Texts, the most nesting, and their trees.
    const SUMS_READ: &[(&str, u32, &str)] = &[
        ("x", 1, "r0( r1( r4( r6( 0 ) ) ) ) "),
        ("xl", 1, "r0( r1( r4( r6( 0 r7( 1 ) ) ) ) ) "),
        ("mx", 2, "r0( r1( r3( 0 r4( r6( 1 ) ) ) ) ) "),
        (
            "xpxpx",
            3,
            "r0( r1( r4( r6( 0 ) ) r2( 1 r4( r6( 2 ) ) ) r2( 3 r4( r6( 4 ) ) ) ) ) ",
        ),
        ("bxe", 2, "r0( r1( r4( r5( 0 r1( r4( r6( 1 ) ) ) 2 ) ) ) ) "),
        // the end, a symbol that cannot come, and a first symbol that cannot
        ("", 1, "no text at 0"),
        ("p", 1, "no text at 0"),
        ("xx", 1, "no text at 1"),
        ("xp", 9, "no text at 2"),
        ("bx", 9, "no text at 2"),
        ("bxlle", 9, "no text at 3"),
        ("x~", 9, "no text at 1"),
        // nesting passes the limit at the name, at the second turn, and nowhere behind the bracket
        ("x", 0, "deep at 0"),
        ("xpxpx", 2, "deep at 3"),
        (
            "bxepx",
            2,
            "r0( r1( r4( r5( 0 r1( r4( r6( 1 ) ) ) 2 ) ) r2( 3 r4( r6( 4 ) ) ) ) ) ",
        ),
        // a symbol that cannot come is no text, also where nesting would pass the limit there
        ("bbp", 2, "no text at 2"),
        ("bbmp", 2, "deep at 2"),
        ("bbmp", 4, "no text at 3"),
    ];

    #[test]
    fn sums_and_their_trees(rt: HostRuntime) -> Result<(), Fail> {
        let table = table(rt.alloc(), SUMS)?;
        assert!(rt; table.len() <= 65536);
        let Ok(reader) = Ll1::new(rt.alloc(), table) else {
            return Err(Fail::from("the table isn't fit"));
        };
        for (text, limit, wanted) in SUMS_READ {
            assert_eq!(rt;
                answer(rt.alloc(), &reader, text, *limit)?.as_str(),
                *wanted,
                "{text}"
            );
        }
        Ok(())
    }

    /// A flat sum of a million symbols: at, below and above the limit, and with a symbol missing at the end.
    #[test]
    fn a_million_symbols(rt: HostRuntime) -> Result<(), Fail> {
        let table = table(rt.alloc(), SUMS)?;
        assert!(rt; table.len() <= 65536);
        let Ok(reader) = Ll1::new(rt.alloc(), table) else {
            return Err(Fail::from("the table isn't fit"));
        };
        let mut flat: Vec<u16> = vec![in rt.alloc(); 120]?;
        for _ in 0..500_000 {
            flat.push(112)?;
            flat.push(120)?;
        }
        assert!(rt; flat.len() == 1_000_001);
        let Ok(tree) = reader.parse(flat.as_slice(), 500_001) else {
            return Err(Fail::from("no tree"));
        };
        assert!(rt; matches!(&tree, Tree::Node { row: 0, kids: _ }));
        assert!(rt;
            matches!(
                reader.parse(flat.as_slice(), 500_000),
                Err(ParseFail::Deep { at: 999_999 })
            )
        );
        flat.push(112)?;
        assert!(rt; flat.len() == 1_000_002);
        assert!(rt;
            matches!(
                reader.parse(flat.as_slice(), 600_000),
                Err(ParseFail::NoText { at: 1_000_002 })
            )
        );
        Ok(())
    }
}
