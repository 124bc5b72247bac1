// The shown place of a carrier, between its previous and its present place.
// Document 01, 'Digest and shown place'.

#![tactic(auto)]

ghost use Rattle.shown.specs.Says.{BlendSays, PlaceSays};

#[derive(Clone, Copy)]
pub struct Place {
    pub x: f64,
    pub y: f64,
}

// One coordinate, `remainder` microseconds after the last step.
#[tactic(auto, using(crate::proofs::Between::step_bits), unfolding(crate::specs::Blend::blend_of))]
pub fn blend(previous: i32, present: i32, remainder: u32) -> f64
    ensures blended { BlendSays previous present remainder result }
{
    let p = f64::from(previous);
    let c = f64::from(present);
    let alpha = f64::from(remainder) / Place::STEP;
    p + (c - p) * alpha
}

impl Place {
    // The microseconds of a step: 'alpha is remainder divided by 20000.0.'
    const STEP: f64 = 20000.0;

    // Of a carrier that was at (px, py) before the last step and is at (cx, cy) after it.
    #[tactic(auto, unfolding(crate::specs::Answer::shown_place))]
    pub fn shown(px: i32, py: i32, cx: i32, cy: i32, remainder: u32) -> Place
        ensures placed { PlaceSays px py cx cy remainder result }
    {
        Place {
            x: blend(px, cx, remainder),
            y: blend(py, cy, remainder),
        }
    }
}
