// The coverage by a round edge: the root is taken only for pixels that the edge may pass.
ghost use Rattle.std.specs.Prelude.{◌≡◌};
ghost use Rattle.paints.specs.Paints.{cov8_of};
ghost use Rattle.paints.specs.Edges.{far_of, near_of, edge_of, edge_cover, beside_of};

use crate::{both_positive, cov8};

// An edge at the distance r. From the squared distance `far` on it covers nothing, and up to `near` all; a NaN where none was
// found.
#[derive(Clone, Copy)]
pub struct Edge {
    pub r: f32,
    pub far: f32,
    pub near: f32,
}

// A squared distance just over half a pixel outside.
#[tactic(auto, unfolding(crate::specs::Edges::far_of))]
fn far_of(r: f32) -> f32
    ensures { result ≡ far_of r }
{
    let e = r + 0.51;
    let k = e * e;
    if mathf::sqrt(k) - r >= 0.5 {
        k
    } else {
        0.0 / 0.0
    }
}

// A squared distance just over half a pixel inside.
#[tactic(auto, unfolding(crate::specs::Edges::near_of))]
fn near_of(r: f32) -> f32
    ensures { result ≡ near_of r }
{
    let e = mathf::max(r - 0.51, 0.0);
    let k = e * e;
    if mathf::sqrt(k) - r <= -0.5 {
        k
    } else {
        0.0 / 0.0
    }
}

// The same as `cov8`, worked out only within half a pixel of the edge.
#[tactic(auto, using(crate::proofs::Covers::half_outside, crate::proofs::Covers::half_inside))]
pub fn side_cover(d: f32) -> u32
    ensures { result ≡ cov8_of d }
{
    if d <= -0.5 {
        return 255;
    }
    if d >= 0.5 {
        return 0;
    }
    cov8(d)
}

impl Edge {
    pub fn of(r: f32) -> Edge
        ensures { result ≡ edge_of r }
    {
        Edge {
            r,
            far: far_of(r),
            near: near_of(r),
        }
    }

    // The coverage of a point that lies dx across and dy down.
    #[tactic(auto, unfolding(crate::specs::Edges::edge_cover))]
    pub fn cover(self, dx: f32, dy: f32) -> u32
        ensures { result ≡ edge_cover self dx dy }
    {
        let d = dx * dx + dy * dy;
        if self.far <= d {
            return 0;
        }
        if d <= self.near {
            return 255;
        }
        cov8(mathf::sqrt(d) - self.r)
    }

    // The coverage by a rounded rectangle, from how far a point is past the straight parts of the sides; `level` is that of its
    // row beside the corners.
    #[tactic(auto, unfolding(crate::specs::Edges::beside_of))]
    pub fn beside(self, qx: f32, qy: f32, level: u32) -> u32
        ensures { result ≡ beside_of self qx qy level }
    {
        if both_positive(qx, qy) {
            self.cover(qx, qy)
        } else if qx > qy {
            side_cover(qx - self.r)
        } else {
            level
        }
    }
}
