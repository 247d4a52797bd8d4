//! What a move makes of the loads of the links.
ghost use Rattle.std.specs.Prelude.{◌≡◌, ◌+◌, ◌<◌, ◌≤◌, ◌^◌, ℕ, All, length, slice_index};
ghost use Rattle.local_search.specs.Loads.{load_after};

/// The load of the link once the amount has gone from the links of one path to those of another.
pub fn load_after(load: u128, link: u32, from: &[u32], to: &[u32], amount: u128) -> u128
    requires { load + amount < 2 ^ 128 }
    ensures { result ≡ load_after load from.now to.now amount link }
{
    let gain = if to.contains(&link) { amount } else { 0 };
    let loss = if from.contains(&link) { amount } else { 0 };
    (load + gain).saturating_sub(loss)
}

/// Takes the amount from the loads of the links of one path to those of another.
pub fn carry_over(loads: &mut [u128], from: &[u32], to: &[u32], amount: u128)
    requires links { length loads.old < 2 ^ 32 }
    requires small { All (λ x. x < 2 ^ 84) loads.old }
    requires amount { amount ≤ 2 ^ 64 }
    ensures { (e : ℕ) → e < length loads.old → slice_index loads.new e ≡ load_after (slice_index loads.old e) from.now to.now amount e }
{
    for link in 0..loads.len() {
        loads[link] = load_after(loads[link], link as u32, from, to, amount);
    }
}
