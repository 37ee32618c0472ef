//! Copies of types.

ghost use Rattle.std.specs.Prelude.{◌≡◌, IfOk};

use expr_type::Vec4;
use std::alloc::{AllocError, Global};
use sv_source::Boxed;
use sv_types::{EnumName, EnumNames, Member, Members, SvType};

fn copy_name(alloc: Global, name: &EnumName) -> Result<EnumName, AllocError>
    ensures { IfOk result (λ c. c ≡ name.now) }
{
    let value = Vec4::from_slice(alloc, name.value.as_slice())?;
    Ok(EnumName {
        name: name.name.copy(alloc)?,
        value,
    })
}

fn copy_names(alloc: Global, names: &[EnumName]) -> Result<EnumNames, AllocError>
    ensures { IfOk result (λ c. c ≡ names.now) }
{
    let mut made = EnumNames::new(alloc);
    for name in names {
        made.push(copy_name(alloc, name)?)?;
    }
    Ok(made)
}

#[cycle(copy)]
fn copy_member(alloc: Global, member: &Member) -> Result<Member, AllocError>
    ensures { IfOk result (λ c. c ≡ member.now) }
{
    let of = copy_type(alloc, &member.of)?;
    Ok(Member {
        name: member.name.copy(alloc)?,
        of,
    })
}

#[cycle(copy)]
fn copy_members(alloc: Global, members: &[Member]) -> Result<Members, AllocError>
    ensures { IfOk result (λ c. c ≡ members.now) }
{
    let mut made = Members::new(alloc);
    for member in members {
        made.push(copy_member(alloc, member)?)?;
    }
    Ok(made)
}

#[cycle(copy)]
fn copy_boxed(alloc: Global, t: &SvType) -> Result<Boxed<SvType>, AllocError>
    ensures { IfOk result (λ c. c ≡ t.now) }
{
    let copy = copy_type(alloc, t)?;
    Boxed::new(alloc, copy)
}

/// A copy of a type, or want of memory.
#[cycle(copy)]
pub fn copy_type(alloc: Global, t: &SvType) -> Result<SvType, AllocError>
    ensures { IfOk result (λ c. c ≡ t.now) }
{
    match t {
        SvType::Scalar { four, signed } => Ok(SvType::Scalar {
            four: *four,
            signed: *signed,
        }),
        SvType::PackedArray {
            left,
            right,
            signed,
            item,
        } => Ok(SvType::PackedArray {
            left: *left,
            right: *right,
            signed: *signed,
            item: copy_boxed(alloc, item.get())?,
        }),
        SvType::Struct {
            id,
            packed,
            signed,
            members,
        } => Ok(SvType::Struct {
            id: *id,
            packed: *packed,
            signed: *signed,
            members: copy_members(alloc, members.as_slice())?,
        }),
        SvType::Union {
            id,
            signed,
            members,
        } => Ok(SvType::Union {
            id: *id,
            signed: *signed,
            members: copy_members(alloc, members.as_slice())?,
        }),
        SvType::Enum { id, base, names } => {
            let names = copy_names(alloc, names.as_slice())?;
            let base = copy_boxed(alloc, base.get())?;
            Ok(SvType::Enum {
                id: *id,
                base,
                names,
            })
        }
        SvType::UnpackedArray { left, right, item } => Ok(SvType::UnpackedArray {
            left: *left,
            right: *right,
            item: copy_boxed(alloc, item.get())?,
        }),
    }
}
