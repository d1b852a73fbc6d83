//! What holds of all sizes and geometries.
ghost use Rattle.std.specs.Prelude.{◌≡◌};
ghost use Rattle.hk_words.specs.declared.geometry.Geometry.{Geometry};
ghost use Rattle.hk_words.specs.Geometry.{Sizes, HasSizes};

/// Sizes are of one geometry at most: what it keeps beside them are facts about them.
pub fn one_geometry()
    ensures { (g h : Geometry) (s : Sizes) → HasSizes g s → HasSizes h s → g ≡ h }
{}
