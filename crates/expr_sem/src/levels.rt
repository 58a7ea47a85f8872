//! How deep a scope lies round a block.
ghost use Rattle.std.specs.Prelude.{◌≡◌, ◌==◌, position};
ghost use Rattle.m2_base.specs.Statics.Contexts.{level_of as spec_level};
ghost use Rattle.type_rules.specs.Scenes.{block_of};

use m2_base::Around;

/// How far a scope lies from the block in its chain, which begins with the block.
fn distance_in(chain: &[u32], scope: u32) -> Option<usize>
    ensures { result ≡ position (λ q. q == scope) chain.now }
{
    chain.iter().position(|round| *round == scope)
}

/// The level of a scope: procedures round the block by their distance in its chain; modules have 0.
pub fn level_of(around: &Around, scope: u32) -> u32
    ensures { result ≡ spec_level (block_of around.now) scope }
{
    match distance_in(around.chain.scopes(), scope) {
        Some(distance) if distance < around.level as usize => around.level - distance as u32,
        _ => 0,
    }
}
