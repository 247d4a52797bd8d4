//! What paths put on their links.
ghost use Rattle.std.specs.Prelude.{◌≡◌, ◌+◌, ◌<◌, ◌≤◌, ◌^◌, ℕ, All, IsTrue, length, slice_index};
ghost use Rattle.te_model.specs.Path.{amount_on, is_distinct};

/// Adds the amount to the load of each of the links.
///
/// `loads` has one number for each link of the network. Takes no memory.
pub fn add_along(loads: &mut [u64], links: &[u32], amount: u64)
    requires links { All (λ h. h < length loads.old) links.now }
    requires distinct { IsTrue (is_distinct links.now) }
    requires room { (e : ℕ) → slice_index loads.old e + amount < 2 ^ 64 }
    ensures { (e : ℕ) → slice_index loads.new e ≡ slice_index loads.old e + amount_on links.now amount e }
{
    for h in links {
        loads[*h as usize] += amount;
    }
}

/// Adds the amount, of 128 bits as the loads are, to the load of each of the links.
///
/// `loads` has one number for each link of the network. Takes no memory.
pub fn add_wide_along(loads: &mut [u128], links: &[u32], amount: u128)
    requires links { All (λ h. h < length loads.old) links.now }
    requires distinct { IsTrue (is_distinct links.now) }
    requires room { (e : ℕ) → slice_index loads.old e + amount < 2 ^ 128 }
    ensures added { (e : ℕ) → slice_index loads.new e ≡ slice_index loads.old e + amount_on links.now amount e }
    ensures beyond { (e : ℕ) → 2 ^ 32 ≤ e → slice_index loads.new e ≡ slice_index loads.old e }
{
    for link in links {
        loads[*link as usize] += amount;
    }
}
