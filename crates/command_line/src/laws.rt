// A law of frames, on a function that does nothing.
ghost use Rattle.std.specs.Prelude.{◌≡◌, ◌<◌, ◌^◌, List, ℕ, length, All};
ghost use Rattle.nq_ir.specs.declared.path.Step.{Step};
ghost use Rattle.command_line.specs.Frames.{frames};

/// Frames tell their texts, of fewer than 2^64 bytes each: what is written of one list of texts at
/// given paths is written of no other.
pub fn frame_laws()
    ensures { (paths : List (List Step)) (texts others : List (List ℕ))
        → length texts ≡ length paths → length others ≡ length paths
        → All (λ text. length text < 2 ^ 64) texts → All (λ text. length text < 2 ^ 64) others
        → frames paths texts ≡ frames paths others → texts ≡ others }
{}
