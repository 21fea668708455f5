//! Operations on pointers that need no memory to look at (X3.159-1989 3.3.6, 3.3.8 and 3.3.9).

ghost use Rattle.std.specs.Prelude.{◌≡◌, pos, ◌+ℤ◌, ◌-ℤ◌, int_div, not, IfSome};
ghost use Rattle.hs_meaning.specs.Numbers.{bits_of};
ghost use Rattle.hs_meaning.specs.Pointers as pointers;
ghost use Rattle.hs_meaning.specs.Stops.{stops_if};
ghost use Rattle.hs_meaning.specs.Values.{are_one_pointer};
ghost use Rattle.hs_meaning.specs.declared.outcome.Stop.TheVariants as stop;
ghost use Rattle.hs_values.specs.Answers.{or_stop};

use hs_heap::{Pointer, Spot};
use hs_meaning::Stop;
use hs_tree::{Comparison, Stride};

/// How far a pointer goes from the front of its object or block, in bytes.
const FARTHEST: i64 = 2_147_483_647;

/// The most objects between two pointers, of which none goes farther than `FARTHEST` from its front.
const MOST: u64 = 4_294_967_295;

/// How many bytes a step is; the number is taken with its sign, whatever its type is.
#[inline(always)]
pub fn stride_bytes(stride: Stride, bits: u32) -> i64
    ensures { result ≡ pointers.stride_bytes stride bits }
{
    let bytes = i64::from(stride.size) * i64::from(bits.cast_signed());
    if stride.backward { -bytes } else { bytes }
}

/// The offset so many bytes on.
#[inline(always)]
fn advanced(bytes: i64, at: i64) -> Result<i64, Stop>
    ensures { result ≡ or_stop (stops_if (not (pointers.is_near (at +ℤ bytes))) stop.BadPointer) (at +ℤ bytes) }
{
    match at.checked_add(bytes) {
        Some(end) if -FARTHEST <= end && end <= FARTHEST => Ok(end),
        Some(_) | None => Err(Stop::BadPointer),
    }
}

/// The pointer so many bytes on.
///
/// # Errors
///
/// `Nil` for NIL, and `BadPointer` for a handle or for a place that is more than 2147483647 bytes from the front of the object or block.
#[inline(always)]
pub fn moved(bytes: i64, its: Pointer) -> Result<Pointer, Stop>
    ensures { result ≡ or_stop (pointers.moved_stop bytes its) (pointers.moved_by bytes its) }
{
    match its {
        Pointer::Nil => Err(Stop::Nil),
        Pointer::Handle(_) => Err(Stop::BadPointer),
        Pointer::Fixed(object, at) => Ok(Pointer::Fixed(object, advanced(bytes, at)?)),
        Pointer::Spot(its) => Ok(Pointer::Spot(Spot {
            offset: advanced(bytes, its.offset)?,
            ..its
        })),
    }
}

/// The offsets of two pointers into one object or one block.
fn offsets(a: Pointer, b: Pointer) -> Option<(i64, i64)>
    ensures { result ≡ pointers.offsets_of a b }
{
    match (a, b) {
        (Pointer::Fixed(m, at), Pointer::Fixed(n, end)) if m == n => Some((at, end)),
        (Pointer::Spot(a), Pointer::Spot(b)) if a.block == b.block => Some((a.offset, b.offset)),
        _ => None,
    }
}

/// Whether the two do not point into one object or one block.
pub fn are_apart(a: Pointer, b: Pointer) -> bool
    ensures { result ≡ pointers.are_apart (pointers.offsets_of a b) }
{
    offsets(a, b).is_none()
}

/// Whether the two are equal but for their epochs.
pub(crate) fn are_one(a: Pointer, b: Pointer) -> bool
    ensures { result ≡ are_one_pointer a b }
{
    match (a, b) {
        (Pointer::Spot(a), Pointer::Spot(b)) => a.block == b.block
            && a.life == b.life
            && a.offset == b.offset,
        (Pointer::Nil | Pointer::Fixed(_, _) | Pointer::Handle(_) | Pointer::Spot(_), _) => a == b,
    }
}

/// The order of two offsets (3.3.8).
fn in_order(operator: Comparison, a: i64, b: i64) -> bool
    ensures { result ≡ pointers.order_of operator a b }
{
    match operator {
        Comparison::Less => a < b,
        Comparison::Greater => a > b,
        Comparison::LessEqual => a <= b,
        Comparison::GreaterEqual => a >= b,
        Comparison::Equal => a == b,
        Comparison::NotEqual => a != b,
    }
}

/// What a comparison of two pointers answers, if both are current and, for an order, not apart.
pub fn answered(operator: Comparison, a: Pointer, b: Pointer) -> bool
    ensures { result ≡ pointers.pointer_answer operator a b }
{
    match operator {
        Comparison::Equal => are_one(a, b),
        Comparison::NotEqual => !are_one(a, b),
        Comparison::Less | Comparison::Greater | Comparison::LessEqual | Comparison::GreaterEqual =>
            match offsets(a, b) {
                None => false,
                Some((a, b)) => in_order(operator, a, b),
            },
    }
}

/// How many objects of that size are between two offsets, as 32 bits; 0 if the size is. There is no answer for 4294967296 objects or more.
fn count_between(size: u32, a: i64, b: i64) -> Option<u32>
    ensures { IfSome result (λ bits. bits ≡ bits_of (int_div (a -ℤ b) (pos size))) }
{
    if size == 0 {
        return Some(0);
    }
    let count = a.abs_diff(b) / u64::from(size);
    if count > MOST {
        return None;
    }
    Some(if a < b {
        0u32.wrapping_sub(count as u32)
    } else {
        count as u32
    })
}

/// How many objects of that size are between two pointers, as 32 bits; 0 if they are apart. There is no answer if they are 4294967296 objects
/// or more: no pointers of a run are, since none goes farther than 2147483647 bytes from the front of its object.
pub fn difference(size: u32, a: Pointer, b: Pointer) -> Option<u32>
    ensures { IfSome result (λ bits. bits ≡ pointers.difference_of size a b) }
{
    match offsets(a, b) {
        None => count_between(size, 0, 0),
        Some((a, b)) => count_between(size, a, b),
    }
}
