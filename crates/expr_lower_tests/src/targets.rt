//! Select paths that are written. Signals by number are a, b and so on, that with number 8 is the memory m, the local is t.

use tree_words::Word;
use tree_words::Word::{
    Bits, Index, Local, Member, Part, Scalar, Signal, SignedVector, Slide, Type, Vector,
};

/// Paths whose indices are known: without guards, and with decimal selects.
pub const KNOWN: &[(&[Word], &str)] = &[
    // s.f, the only member
    (
        &[
            Type("four packed 7 0 struct 1"),
            Signal(0),
            Vector(7, 0),
            Member(0),
        ],
        "a=v[0+:8]",
    ),
    // the first member of two
    (
        &[
            Type("four packed 3 0 four packed 7 0 struct 2"),
            Signal(0),
            Vector(3, 0),
            Member(0),
        ],
        "a[11:8]=v[0+:4]",
    ),
    // a[0] of two bits
    (
        &[Vector(1, 0), Signal(0), Bits("0"), Scalar, Index],
        "a[0]=v[0+:1]",
    ),
    // a[5:2] of [0:7]
    (
        &[Vector(0, 7), Signal(0), Vector(2, 5), Part(2, 5)],
        "a[5:2]=v[0+:4]",
    ),
    // partly out of range: the bits in range are written
    (
        &[Vector(7, 0), Signal(0), Vector(9, 6), Part(9, 6)],
        "a[7:6]=v[0+:2]",
    ),
    // out of range, and with x: nothing is
    (&[Vector(7, 0), Signal(0), Bits("1000"), Scalar, Index], ""),
    (&[Vector(7, 0), Signal(0), Bits("0x0"), Scalar, Index], ""),
    // m[3] of [4:1], and a part of it
    (
        &[
            Type("four packed 7 0 array 4 1"),
            Signal(8),
            Bits("011"),
            Vector(7, 0),
            Index,
        ],
        "m[2]=v[0+:8]",
    ),
    (
        &[
            Type("four packed 7 0 array 4 1"),
            Signal(8),
            Bits("011"),
            Vector(7, 0),
            Index,
            Vector(5, 2),
            Part(5, 2),
        ],
        "m[2][5:2]=v[0+:4]",
    ),
];

/// Paths with other indices.
pub const OTHERS: &[(&[Word], &str)] = &[
    // s.f[b +: 2]: bit by bit, each under the guard of its own index
    (
        &[
            Type("four packed 7 0 struct 1"),
            Signal(0),
            Vector(7, 0),
            Member(0),
            Vector(2, 0),
            Signal(1),
            Vector(1, 0),
            Slide(2, true),
        ],
        "a['00000+({b}*'00001)]=v[0+:1];($signed({'0,b})>=$signed('11111))&&($signed({'0,b})<=$signed('00110))?a['00000+({$signed({'0,b})-$signed('11111)}*'00001)]=v[1+:1]",
    ),
    // a[b] of [7:0]
    (
        &[
            Vector(7, 0),
            Signal(0),
            Vector(2, 0),
            Signal(1),
            Scalar,
            Index,
        ],
        "a['00000+({b}*'00001)]=v[0+:1]",
    ),
    // a[b][c]: an inner index that has numbers of no bit writes no neighbour
    (
        &[
            Type("four packed 7 0 packed 3 0"),
            Signal(0),
            Vector(1, 0),
            Signal(1),
            Vector(7, 0),
            Index,
            Vector(3, 0),
            Signal(2),
            Scalar,
            Index,
        ],
        "c<='0111?a[('0000000+({b}*'0001000))+({c}*'0000001)]=v[0+:1]",
    ),
    // the same by a signed index
    (
        &[
            Type("four packed 7 0 packed 3 0"),
            Signal(0),
            Vector(1, 0),
            Signal(1),
            Vector(7, 0),
            Index,
            SignedVector(3, 0),
            Signal(2),
            Scalar,
            Index,
        ],
        "($signed($signed(c))>=$signed('0000000))&&($signed($signed(c))<=$signed('0000111))?a[('0000000+({b}*'0001000))+({$signed($signed(c))-$signed('0000000)}*'0000001)]=v[0+:1]",
    ),
    // a[5:4][b]: a target for each number with which b names a bit
    (
        &[
            Vector(7, 0),
            Signal(0),
            Vector(5, 4),
            Part(5, 4),
            Vector(2, 0),
            Signal(1),
            Scalar,
            Index,
        ],
        "{b}==='100?a[4]=v[0+:1];{b}==='101?a[5]=v[0+:1]",
    ),
    // t[b], a local
    (
        &[
            Vector(7, 0),
            Local(0),
            Vector(2, 0),
            Signal(1),
            Scalar,
            Index,
        ],
        "t['00000+({b}*'00001)]=v[0+:1]",
    ),
    // a[4][b] of four words: nothing is written, and b is named
    (
        &[
            Type("four packed 7 0 packed 3 0"),
            Signal(0),
            Bits("100"),
            Vector(7, 0),
            Index,
            Vector(2, 0),
            Signal(1),
            Scalar,
            Index,
        ],
        "names '0&&b",
    ),
    // m[a] of [3:0], and of [0:2], where it has a number of no word
    (
        &[
            Type("four packed 7 0 array 3 0"),
            Signal(8),
            Vector(1, 0),
            Signal(0),
            Vector(7, 0),
            Index,
        ],
        "m[a]=v[0+:8]",
    ),
    (
        &[
            Type("four packed 7 0 array 0 2"),
            Signal(8),
            Vector(1, 0),
            Signal(0),
            Vector(7, 0),
            Index,
        ],
        "a<='10?m[{a}]=v[0+:8]",
    ),
    // m[a][b +: 2]: the same in a word
    (
        &[
            Type("four packed 7 0 array 3 0"),
            Signal(8),
            Vector(1, 0),
            Signal(0),
            Vector(7, 0),
            Index,
            Vector(2, 0),
            Signal(1),
            Vector(1, 0),
            Slide(2, true),
        ],
        "m[a]['00000+({b}*'00001)]=v[0+:1];($signed({'0,b})>=$signed('11111))&&($signed({'0,b})<=$signed('00110))?m[a]['00000+({$signed({'0,b})-$signed('11111)}*'00001)]=v[1+:1]",
    ),
];
