//! Whether two triangles can be in one lawful plate.
ghost use Rattle.std.specs.Prelude.{◌≡◌, true};
ghost use Rattle.rules.specs.Limits.{modest};
ghost use Rattle.meeting.specs.Meeting.{unlike, compatible as compatible_with};

use crate::apart::parted;
use crate::clear::clear_of;
use crate::parts::which_edge;
use rules::Triangle;
use rules::limits::Within;

/// Whether no directed edge of the one is one of the other.
#[tactic(auto, unfolding(crate::specs::Meeting::unlike))]
fn unlike_edges(s: &Triangle, t: &Triangle) -> bool
    ensures { result ≡ unlike s.now t.now }
{
    s.edges().iter().all(|e| which_edge(e, t).is_none())
}

/// Whether two triangles are parted, no corner of the one lies on an edge of the other, and no directed edge stands in both.
pub fn compatible(s: &Triangle, t: &Triangle) -> bool
    requires within_s { modest s.now ≡ true }
    requires within_t { modest t.now ≡ true }
    ensures { result ≡ compatible_with s.now t.now }
{
    compatible_within(&Within::known(*s), &Within::known(*t))
}

/// The same, of triangles whose type says that they are within the limits.
#[tactic(auto, unfolding(crate::specs::Meeting::compatible))]
pub fn compatible_within(s: &Within<Triangle>, t: &Within<Triangle>) -> bool
    ensures { result ≡ compatible_with s.now.value t.now.value }
{
    parted(s, t) && clear_of(s, t) && clear_of(t, s) && unlike_edges(&s.value, &t.value)
}
