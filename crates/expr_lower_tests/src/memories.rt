//! Elements of signals that are memories in the text. The signal with number 8 is the memory m; the others are as in `paths`.

use tree_words::Word;
use tree_words::Word::{Bits, Index, Scalar, Signal, SignedVector, Type, Vector};

/// Words by known and other indices, and selects in them.
pub const WORDS: &[(&[Word], u32, &str)] = &[
    // m[a] of [3:0]
    (
        &[
            Type("four packed 7 0 array 3 0"),
            Signal(8),
            Vector(1, 0),
            Signal(0),
            Vector(7, 0),
            Index,
        ],
        8,
        "m[a]",
    ),
    // m[a] of [0:3]: each word has the number of its index
    (
        &[
            Type("four packed 7 0 array 0 3"),
            Signal(8),
            Vector(1, 0),
            Signal(0),
            Vector(7, 0),
            Index,
        ],
        8,
        "m[a]",
    ),
    // m[a] of [0:2]: index 3 has no word, where the memory reads x
    (
        &[
            Type("four packed 3 0 array 0 2"),
            Signal(8),
            Vector(1, 0),
            Signal(0),
            Vector(3, 0),
            Index,
        ],
        4,
        "m[a]",
    ),
    // m[3] of [3:0]
    (
        &[
            Type("four packed 7 0 array 3 0"),
            Signal(8),
            Bits("11"),
            Vector(7, 0),
            Index,
        ],
        8,
        "m[3]",
    ),
    // m[3] of [1:4]
    (
        &[
            Type("four packed 7 0 array 1 4"),
            Signal(8),
            Bits("11"),
            Vector(7, 0),
            Index,
        ],
        8,
        "m[2]",
    ),
    // one out of range, and one with x
    (
        &[
            Type("four packed 7 0 array 1 4"),
            Signal(8),
            Bits("000"),
            Vector(7, 0),
            Index,
        ],
        8,
        "m[4]",
    ),
    (
        &[
            Type("four packed 7 0 array 3 0"),
            Signal(8),
            Bits("1x"),
            Vector(7, 0),
            Index,
        ],
        8,
        "m[4]",
    ),
    // m[a] of [0:3] by a signed index
    (
        &[
            Type("four packed 7 0 array 0 3"),
            Signal(8),
            SignedVector(1, 0),
            Signal(0),
            Vector(7, 0),
            Index,
        ],
        8,
        "m[{$signed($signed(a))-$signed('000000000000000000000000000000000000000000000000000000000000000000)}]",
    ),
    // m[a] of [5:2]: how far a lies above 2, in 66 bits
    (
        &[
            Type("four packed 7 0 array 5 2"),
            Signal(8),
            Vector(3, 0),
            Signal(0),
            Vector(7, 0),
            Index,
        ],
        8,
        "m[{$signed({'0,a})-$signed('000000000000000000000000000000000000000000000000000000000000000010)}]",
    ),
    // m[m[m[a]]] of five words of three bits: each index stands in the text once
    (
        &[
            Type("four packed 2 0 array 4 0"),
            Signal(8),
            Type("four packed 2 0 array 4 0"),
            Signal(8),
            Type("four packed 2 0 array 4 0"),
            Signal(8),
            Vector(2, 0),
            Signal(0),
            Vector(2, 0),
            Index,
            Vector(2, 0),
            Index,
            Vector(2, 0),
            Index,
        ],
        3,
        "m[m[m[a]]]",
    ),
    // m[a] of two-state bits of [0:2]: where index 3 reads x, the helper makes 0 of it
    (
        &[
            Type("two packed 3 0 array 0 2"),
            Signal(8),
            Vector(1, 0),
            Signal(0),
            Type("two packed 3 0"),
            Index,
        ],
        4,
        "sv2v_h_two_state_4(m[a])",
    ),
    // m[a][2]
    (
        &[
            Type("four packed 7 0 array 3 0"),
            Signal(8),
            Vector(1, 0),
            Signal(0),
            Vector(7, 0),
            Index,
            Bits("010"),
            Scalar,
            Index,
        ],
        1,
        "sv2v_h_select_1_33_8(m[a],$signed('000000000000000000000000000000010))",
    ),
    // a word of two-state bits
    (
        &[
            Type("two packed 7 0 array 3 0"),
            Signal(8),
            Bits("01"),
            Type("two packed 7 0"),
            Index,
        ],
        8,
        "sv2v_h_two_state_8(m[1])",
    ),
];
