//! Constants that objects start with (X3.159-1989 3.4): numbers, the null pointer and address constants.

ghost use Rattle.std.specs.Prelude.{◌≡◌, IfOk};
ghost use Rattle.hs_aggregates.specs.Addresses.{signed_number, is_offset, start_of, address_at, moved, bytes_over, stepped, static_object, address_value, address_of_object, is_null, constant_by, constant_in};
ghost use Rattle.hs_tree.specs.Views.{view_right, view_left};

use hs_base::NoMemory;
use hs_constants::Value;
use hs_operand_types::constant_value;
use hs_tree::{Base, Constant, Lvalue, Rvalue, Variable};
use hs_types::Types;

/// An address constant: an object of static storage duration, and the byte from its start.
#[derive(Clone, Copy)]
pub(crate) struct Address {
    pub(crate) base: Base,
    pub(crate) offset: i32,
}

/// 32 bits as a number with a sign.
fn signed_number(bits: u32) -> i64
    ensures { result ≡ signed_number bits }
{
    if bits >= 0x8000_0000 {
        i64::from(bits) - 0x1_0000_0000
    } else {
        i64::from(bits)
    }
}

/// Whether a number has 32 bits with a sign.
fn is_offset(bytes: i64) -> bool
    ensures { result ≡ is_offset bytes }
{
    -2_147_483_648 <= bytes && bytes <= 2_147_483_647
}

/// The start of an object.
fn start_of(base: Base) -> Address
    ensures { result ≡ start_of base }
{
    Address { base, offset: 0 }
}

/// The byte of an object, if its offset is a number of 32 bits.
fn address_at(base: Base, bytes: i64) -> Option<Address>
    ensures { result ≡ address_at base bytes }
{
    if is_offset(bytes) {
        let offset = bytes as i32;
        Some(Address { base, offset })
    } else {
        None
    }
}

/// So many bytes on, if the offset is still a number of 32 bits.
fn moved(bytes: i64, it: Option<Address>) -> Result<Option<Address>, NoMemory>
    ensures { IfOk result (λ found. found ≡ moved bytes it) }
{
    let Some(address) = it else {
        return Ok(None);
    };
    let sum = i64::from(address.offset)
        .checked_add(bytes)
        .ok_or(NoMemory)?;
    Ok(address_at(address.base, sum))
}

/// So many objects of that size, on or back.
fn bytes_over(backward: bool, size: u32, bits: u32) -> Result<i64, NoMemory>
    ensures { IfOk result (λ bytes. bytes ≡ bytes_over backward size bits) }
{
    let bytes = i64::from(size)
        .checked_mul(signed_number(bits))
        .ok_or(NoMemory)?;
    if backward {
        return bytes.checked_neg().ok_or(NoMemory);
    }
    Ok(bytes)
}

/// Plus or minus an integral constant, in which nothing is divided by 0 (3.3.6).
fn stepped(
    backward: bool,
    size: u32,
    number: Option<Value>,
    it: Option<Address>,
) -> Result<Option<Address>, NoMemory>
    ensures { IfOk result (λ found. found ≡ stepped backward size number it) }
{
    let Some(value) = number else {
        return Ok(None);
    };
    if value.fails {
        return Ok(None);
    }
    moved(bytes_over(backward, size, value.bits)?, it)
}

/// A variable, if it is an object of static storage duration.
fn static_object(variable: Variable) -> Option<Address>
    ensures { result ≡ static_object variable }
{
    match variable {
        Variable::Global(place) => Some(start_of(Base::Global(place))),
        Variable::Local(_) => None,
    }
}

/// What an address constant points to (3.4), or `None` if the expression is not one.
#[cycle(address)]
fn address_value(types: &Types, e: &Rvalue) -> Result<Option<Address>, NoMemory>
    ensures { IfOk result (λ found. found ≡ address_value types.now (view_right e.now)) }
{
    match e {
        Rvalue::Decay { array: object, .. } | Rvalue::Address { object, .. } => {
            address_of_object(types, object)
        }
        Rvalue::Cast { operand, .. } | Rvalue::ConvertPointer { operand, .. } => {
            address_value(types, operand)
        }
        Rvalue::Step {
            stride,
            pointer_first,
            left,
            right,
            ..
        } => {
            if *pointer_first {
                let pointer = address_value(types, left)?;
                let number = constant_value(types, right);
                stepped(stride.backward, stride.size, number, pointer)
            } else {
                let pointer = address_value(types, right)?;
                let number = constant_value(types, left);
                stepped(stride.backward, stride.size, number, pointer)
            }
        }
        Rvalue::Number { .. }
        | Rvalue::Nil { .. }
        | Rvalue::Load { .. }
        | Rvalue::ConvertNumber { .. }
        | Rvalue::Unary { .. }
        | Rvalue::Not { .. }
        | Rvalue::Arithmetic { .. }
        | Rvalue::Comparison { .. }
        | Rvalue::ComparePointers { .. }
        | Rvalue::IsNil { .. }
        | Rvalue::Difference { .. }
        | Rvalue::And { .. }
        | Rvalue::Or { .. }
        | Rvalue::Conditional { .. }
        | Rvalue::Comma { .. }
        | Rvalue::Assign { .. }
        | Rvalue::Update { .. }
        | Rvalue::Advance { .. }
        | Rvalue::PostUpdate { .. }
        | Rvalue::PostAdvance { .. }
        | Rvalue::Call { .. }
        | Rvalue::CallRoutine { .. } => Ok(None),
    }
}

/// The address of an object that an expression designates, if it is an address constant.
#[cycle(address)]
fn address_of_object(types: &Types, it: &Lvalue) -> Result<Option<Address>, NoMemory>
    ensures { IfOk result (λ found. found ≡ address_of_object types.now (view_left it.now)) }
{
    match it {
        Lvalue::Variable { variable, .. } => Ok(static_object(*variable)),
        Lvalue::Literal { literal, .. } => Ok(Some(start_of(Base::Literal(*literal)))),
        Lvalue::Target { pointer, .. } => address_value(types, pointer),
        Lvalue::Element {
            size,
            pointer_first,
            left,
            right,
            ..
        } => {
            if *pointer_first {
                let pointer = address_value(types, left)?;
                stepped(false, *size, constant_value(types, right), pointer)
            } else {
                let pointer = address_value(types, right)?;
                stepped(false, *size, constant_value(types, left), pointer)
            }
        }
        Lvalue::Member { offset, object, .. } => {
            let object = address_of_object(types, object)?;
            moved(i64::from(*offset), object)
        }
        Lvalue::Arrow {
            offset,
            pointer,
            ..
        } => {
            let pointer = address_value(types, pointer)?;
            moved(i64::from(*offset), pointer)
        }
    }
}

/// Whether a value is the null pointer, cast or not.
fn is_null(e: &Rvalue) -> bool
    ensures { result ≡ is_null (view_right e.now) }
{
    let mut inner = e;
    'inner: loop {
        match inner {
            Rvalue::Nil { .. } => return true,
            Rvalue::Cast { operand, .. } | Rvalue::ConvertPointer { operand, .. } => {
                inner = operand;
            }
            Rvalue::Number { .. }
            | Rvalue::Load { .. }
            | Rvalue::Decay { .. }
            | Rvalue::Address { .. }
            | Rvalue::ConvertNumber { .. }
            | Rvalue::Unary { .. }
            | Rvalue::Not { .. }
            | Rvalue::Arithmetic { .. }
            | Rvalue::Comparison { .. }
            | Rvalue::ComparePointers { .. }
            | Rvalue::IsNil { .. }
            | Rvalue::Step { .. }
            | Rvalue::Difference { .. }
            | Rvalue::And { .. }
            | Rvalue::Or { .. }
            | Rvalue::Conditional { .. }
            | Rvalue::Comma { .. }
            | Rvalue::Assign { .. }
            | Rvalue::Update { .. }
            | Rvalue::Advance { .. }
            | Rvalue::PostUpdate { .. }
            | Rvalue::PostAdvance { .. }
            | Rvalue::Call { .. }
            | Rvalue::CallRoutine { .. } => return false,
        }
    }
}

/// A number, in which nothing is divided by 0, or an address.
fn constant_by(value: Option<Value>, it: Option<Address>) -> Option<Constant>
    ensures { result ≡ constant_by value it }
{
    match value {
        Some(number) => {
            if number.fails {
                None
            } else {
                Some(Constant::Number(number.bits))
            }
        }
        None => match it {
            Some(Address { base, offset }) => Some(Constant::Address { base, offset }),
            None => None,
        },
    }
}

/// The constant that a scalar value is, or `None` if it is not one.
///
/// Example: the address of `a`, and 4 bytes, for `&a[1]` of an array of `long`.
pub fn constant_in(types: &Types, e: &Rvalue) -> Result<Option<Constant>, NoMemory>
    ensures { IfOk result (λ found. found ≡ constant_in types.now (view_right e.now)) }
{
    if is_null(e) {
        return Ok(Some(Constant::Nil));
    }
    let it = address_value(types, e)?;
    Ok(constant_by(constant_value(types, e), it))
}
