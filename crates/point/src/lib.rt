// A point: a plain record of three f32, after `point.rs`, with its steps by value. Each step rounds
// once for each operation, in the source's order. A part of the public face `sdf`.
#![tactic(auto)]

ghost use Rattle.std.specs.Prelude.{◌≡◌};
ghost use Rattle.point.specs.Point.{◌+ᵥ◌, ◌-ᵥ◌, ◌*ᵥ◌, ◌÷ᵥ◌, ◌·◌, ◌×ᵥ◌, ◌≐ᵥ◌};
ghost use Rattle.point.specs.Point as Spec;

#[derive(Clone, Copy)]
pub struct Point {
    pub x: f32,
    pub y: f32,
    pub z: f32,
}

// The three axes: of a ray, of a coordinate, of the rows.
#[derive(Clone, Copy)]
pub enum Axis {
    X,
    Y,
    Z,
}

// The axis of a number: 0 is x, 1 is y, and any other z.
pub fn axis_numbered(number: u32) -> Axis
    ensures { result ≡ Spec.axis_numbered number }
{
    if number == 0 {
        return Axis::X;
    }
    if number == 1 {
        return Axis::Y;
    }
    Axis::Z
}

impl Point {
    pub fn add(self, other: Point) -> Point
        ensures { result ≡ self +ᵥ other }
    {
        Point {
            x: self.x + other.x,
            y: self.y + other.y,
            z: self.z + other.z,
        }
    }

    pub fn sub(self, other: Point) -> Point
        ensures { result ≡ self -ᵥ other }
    {
        Point {
            x: self.x - other.x,
            y: self.y - other.y,
            z: self.z - other.z,
        }
    }

    pub fn dot(self, other: Point) -> f32
        ensures { result ≡ self · other }
    {
        self.x * other.x + self.y * other.y + self.z * other.z
    }

    pub fn cross(self, other: Point) -> Point
        ensures { result ≡ self ×ᵥ other }
    {
        Point {
            x: self.y * other.z - self.z * other.y,
            y: self.z * other.x - self.x * other.z,
            z: self.x * other.y - self.y * other.x,
        }
    }

    pub fn length(self) -> f32
        ensures { result ≡ Spec.length_of self }
    {
        float_root::sqrt(self.dot(self))
    }

    pub fn dist(self, other: Point) -> f32
        ensures { result ≡ Spec.dist_of self other }
    {
        self.sub(other).length()
    }

    pub fn fmul(self, other: f32) -> Point
        ensures { result ≡ self *ᵥ other }
    {
        Point {
            x: self.x * other,
            y: self.y * other,
            z: self.z * other,
        }
    }

    pub fn comp_div(self, other: Point) -> Point
        ensures { result ≡ self ÷ᵥ other }
    {
        Point {
            x: self.x / other.x,
            y: self.y / other.y,
            z: self.z / other.z,
        }
    }

    // The source's `==`: -0 equals +0, and a NaN equals nothing. A method, and no derived `==`: its clause is the equality that the
    // geometry's definitions are written with, and the edit `same_but_z` bends it.
    pub fn same(self, other: Point) -> bool
        ensures { result ≡ (self ≐ᵥ other) }
    {
        (self.x == other.x) & (self.y == other.y) & (self.z == other.z)
    }

    pub fn get(self, axis: Axis) -> f32
        ensures { result ≡ Spec.coordinate axis self }
    {
        match axis {
            Axis::X => self.x,
            Axis::Y => self.y,
            Axis::Z => self.z,
        }
    }

    // The coordinates turned round, so that the one along the axis comes first.
    pub fn turned(self, axis: Axis) -> Point
        ensures { result ≡ Spec.turned axis self }
    {
        match axis {
            Axis::X => self,
            Axis::Y => Point {
                x: self.y,
                y: self.z,
                z: self.x,
            },
            Axis::Z => Point {
                x: self.z,
                y: self.x,
                z: self.y,
            },
        }
    }
}
