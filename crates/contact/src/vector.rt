// A vector of the sheet, in 64 bits.
ghost use Rattle.std.specs.Prelude.{◌≡◌, ◌≤◌};
ghost use Rattle.fraction.specs.Sizes.{greatest_part};
ghost use Rattle.fraction.specs.Within.{Within};
ghost use Rattle.sheet.specs.Accepted.{TrackOk};
ghost use Rattle.sheet.specs.Table as table;

use sheet::Track;

// From one point of the sheet to another, or how far a tip goes in a unit of time.
#[derive(Clone, Copy)]
pub struct Vector {
    pub x: i64,
    pub y: i64,
    ghost x_in: { Within 4095 x },
    ghost y_in: { Within 4095 y },
}

impl Vector {
    // From (ax, ay) to (bx, by).
    pub fn between(ax: u16, ay: u16, bx: u16, by: u16) -> Vector
        requires { (ax ≤ 4095) × (ay ≤ 4095) × (bx ≤ 4095) × (by ≤ 4095) }
        ensures { (result.x ≡ table.gap ax bx) × (result.y ≡ table.gap ay by) }
    {
        let x = crate::gap(ax, bx);
        let y = crate::gap(ay, by);
        Vector { x, y }
    }

    // The speed of tip a.
    pub fn speed(a: Track) -> Vector
        requires { TrackOk a }
        ensures { (result.x ≡ a.vx) × (result.y ≡ a.vy) }
    {
        let x = crate::speed(a.vx);
        let y = crate::speed(a.vy);
        Vector { x, y }
    }

    // 0 where the two are parallel.
    pub fn cross(self, other: Vector) -> i64
        ensures { (result ≡ table.cross self.x self.y other.x other.y) × Within greatest_part result }
    {
        self.x * other.y - self.y * other.x
    }
}
