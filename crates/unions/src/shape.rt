// What the coupons say of a source or a matrix: its flavor, and with that a window or none, and where the window starts.
ghost use Rattle.std.specs.Prelude.{◌≡◌, ◌*◌, ◌≤◌};
ghost use Rattle.numbers.specs.Numbers.{flavor_at, offset_at};

use super::offset::Offset;
use numbers::Flavor;
use numbers::size::SketchSize;

#[derive(Clone, Copy)]
pub struct Shape {
    pub size: SketchSize,
    pub coupons: u32,
    pub flavor: Flavor,
    pub offset: Offset,
    ghost most: { coupons ≤ 64 * size.k },
    ghost flavored: { flavor ≡ flavor_at size.k coupons },
    ghost placed: { offset.column ≡ offset_at size.k coupons },
}
