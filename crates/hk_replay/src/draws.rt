//! Numbers drawn one after another, and the calls that they make.
ghost use Rattle.std.specs.Prelude.{◌≡◌, ◌+◌, ◌<◌};
ghost use Rattle.hk_words.specs.Draws.{next, drawn};
ghost use Rattle.hk_replay.specs.Making.{drawn_shape, call_drawn, after_call};

use hk_words::{Call, Draws, Shape};

/// The next number below a small limit.
fn small(draws: &mut Draws, limit: u8) -> u8
    requires { 0 < limit }
    ensures state { draws.new.state ≡ next draws.old.state }
    ensures value { result ≡ drawn limit draws.new.state }
    ensures below { result < limit }
{
    draws.below(u64::from(limit)) as u8
}

/// A register that is written.
fn target(draws: &mut Draws) -> u8
    ensures state { draws.new.state ≡ next draws.old.state }
    ensures value { result ≡ 1 + drawn 3 draws.new.state }
{
    1 + small(draws, 3)
}

/// The shape of an object of below 3 reference fields and 1 or 2 number fields.
fn shape(draws: &mut Draws) -> Shape
    ensures state { draws.new.state ≡ next (next draws.old.state) }
    ensures value { result ≡ drawn_shape (next draws.old.state) (next (next draws.old.state)) }
{
    let refs = small(draws, 3);
    let nums = 1 + small(draws, 2);
    Shape { refs, nums }
}

/// A call: its kind, and then its words in their order.
#[tactic(auto, unfolding(crate::specs::Making::call_drawn, crate::specs::Making::after_call, crate::specs::Making::call_by, crate::specs::Making::state_by))]
pub fn drawn_call(draws: &mut Draws) -> Call
    ensures call { result ≡ call_drawn draws.old.state }
    ensures state { draws.new.state ≡ after_call draws.old.state }
{
    match small(draws, 7) {
        0 => Call::Get {
            reg: small(draws, 4),
            field: small(draws, 2),
        },
        1 => Call::Put {
            reg: small(draws, 4),
            field: small(draws, 2),
            value: draws.below(1000),
        },
        2 => Call::Load {
            dest: target(draws),
            reg: small(draws, 4),
            field: small(draws, 2),
        },
        3 => Call::Store {
            reg: small(draws, 4),
            field: small(draws, 2),
            from: small(draws, 4),
        },
        4 => Call::Move {
            dest: target(draws),
            from: small(draws, 4),
        },
        5 => Call::Clear {
            dest: target(draws),
        },
        _ => Call::New {
            dest: target(draws),
            shape: shape(draws),
        },
    }
}
