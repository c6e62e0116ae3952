ghost use Rattle.std.specs.Prelude.{◌≡◌, IfSome, bit_and};
ghost use Rattle.rk_model.specs.Directives.Events.{seized};

/// The events that a wish for a set seizes, of those that are pending (`rtems_event_receive`): the
/// pending events of the set. `None` exactly where the wish isn't met: with `all`, where one of the
/// set isn't pending; without it, where none of the set is.
#[tactic(auto, unfolding(rk_model::specs::Directives::Events::seized))]
pub fn receive(pending: u32, wanted: u32, all: bool) -> Option<u32>
    ensures value { result ≡ seized pending wanted all }
    ensures events { IfSome result (λ got. got ≡ bit_and pending wanted) }
{
    let got = pending & wanted;
    let met = if all { got == wanted } else { got != 0 };
    if met { Some(got) } else { None }
}
