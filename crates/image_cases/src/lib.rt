// Closed images that `good_image` takes or refuses: definitions in specs/, and the function that carries them.
#![tactic(auto)]

ghost use Rattle.image_cases.specs.Cases.{GoodCases, DamagedCases};

// The image test on closed images, good and damaged.
#[tactic(auto, using(crate::specs::Cases::good_cases, crate::specs::Cases::damaged_cases))]
pub fn image_cases() -> u32
    ensures { GoodCases × DamagedCases }
{
    6
}
