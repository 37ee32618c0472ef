use b4_core::{BinOp, Bit4, EqOp, UnOp, Vec4, binary, equal, merge, two_state, unary};
use b4_planes::Planes;
use std::alloc::{AllocError, Global};
use std::test::Fail;

const LENGTHS: [usize; 9] = [0, 1, 63, 64, 65, 511, 512, 513, 65_536];

// A vector whose bits follow from `seed`, by a linear congruence.
fn vector(alloc: Global, len: usize, seed: u32) -> Result<Vec4, AllocError> {
    let mut bits = Vec::with_capacity(alloc, len)?;
    let mut state = seed;
    for _i in 0..len {
        state = state.wrapping_mul(1_664_525).wrapping_add(1_013_904_223);
        bits.push(match state / 65_536 % 4 {
            0 => Bit4::Zero,
            1 => Bit4::One,
            2 => Bit4::X,
            _ => Bit4::Z,
        })?;
    }
    Ok(Vec4::from_vec(bits))
}

#[test]
fn binary_operators(rt: HostRuntime) -> Result<(), Fail> {
    let alloc = rt.alloc();
    for len in LENGTHS {
        let (a, b) = (vector(alloc, len, 1)?, vector(alloc, len, 2)?);
        let right = Planes::from_list(alloc, &b)?;
        for op in [BinOp::And, BinOp::Or, BinOp::Xor] {
            let mut left = Planes::from_list(alloc, &a)?;
            assert!(rt; left.len() == right.len());
            assert!(rt; a.len() == b.len());
            let want = match op {
                BinOp::And => {
                    left.and_into(&right);
                    if a.len() > 0 {
                        binary(alloc, BinOp::And, &a, &b, false)?
                    } else {
                        vector(alloc, 0, 1)?
                    }
                }
                BinOp::Or => {
                    left.or_into(&right);
                    if a.len() > 0 {
                        binary(alloc, BinOp::Or, &a, &b, false)?
                    } else {
                        vector(alloc, 0, 1)?
                    }
                }
                _ => {
                    left.xor_into(&right);
                    if a.len() > 0 {
                        binary(alloc, BinOp::Xor, &a, &b, false)?
                    } else {
                        vector(alloc, 0, 1)?
                    }
                }
            };
            assert_eq!(rt;
                left.to_list(alloc)?.as_slice(),
                want.as_slice(),
                "{len} bits"
            );
        }
    }
    Ok(())
}

#[test]
fn merges(rt: HostRuntime) -> Result<(), Fail> {
    let alloc = rt.alloc();
    for len in LENGTHS {
        let (a, b) = (vector(alloc, len, 3)?, vector(alloc, len, 4)?);
        let right = Planes::from_list(alloc, &b)?;
        let mut left = Planes::from_list(alloc, &a)?;
        assert!(rt; left.len() == right.len());
        assert!(rt; a.len() == b.len());
        left.merge_into(&right);
        assert_eq!(rt;
            left.to_list(alloc)?.as_slice(),
            merge(alloc, &a, &b)?.as_slice(),
            "{len} bits"
        );
    }
    Ok(())
}

#[test]
fn operators_in_place(rt: HostRuntime) -> Result<(), Fail> {
    let alloc = rt.alloc();
    for len in LENGTHS {
        let a = vector(alloc, len, 5)?;
        let mut turned = Planes::from_list(alloc, &a)?;
        assert_eq!(rt;
            turned.to_list(alloc)?.as_slice(),
            a.as_slice(),
            "{len} bits"
        );
        turned.not_in_place();
        if a.len() > 0 {
            assert_eq!(rt;
                turned.to_list(alloc)?.as_slice(),
                unary(alloc, UnOp::Not, &a)?.as_slice(),
                "{len} bits"
            );
        } else {
            assert_eq!(rt; turned.len(), 0);
        }
        let mut stored = Planes::from_list(alloc, &a)?;
        stored.to_two_state();
        assert_eq!(rt;
            stored.to_list(alloc)?.as_slice(),
            two_state(alloc, &a)?.as_slice(),
            "{len} bits"
        );
    }
    Ok(())
}

// Equal vectors, and vectors that differ in their last bit alone.
#[test]
fn case_equality(rt: HostRuntime) -> Result<(), Fail> {
    let alloc = rt.alloc();
    for len in LENGTHS {
        let a = vector(alloc, len, 6)?;
        let mut b = vector(alloc, len, 6)?;
        let left = Planes::from_list(alloc, &a)?;
        let right = Planes::from_list(alloc, &b)?;
        assert!(rt; left.len() == right.len());
        assert!(rt; left.case_eq(&right), "{len} bits");
        if b.len() > 0 {
            let last = b.len() - 1;
            b.put(
                last,
                if b.at(last) == Bit4::X {
                    Bit4::Z
                } else {
                    Bit4::X
                },
            );
            let other = Planes::from_list(alloc, &b)?;
            assert!(rt; left.len() == other.len());
            assert!(rt; !left.case_eq(&other), "{len} bits");
            assert!(rt; a.len() == b.len());
            assert_eq!(rt; equal(EqOp::Case, &a, &b), Bit4::Zero, "{len} bits");
        }
    }
    Ok(())
}
