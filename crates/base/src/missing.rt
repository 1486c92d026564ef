// What may be missing, of any type: whether it is there, as 1 or 0.
ghost use Rattle.std.specs.Prelude.{◌≡◌};
ghost use Rattle.base.specs.Missing.{tag};

// 1 where there is one, else 0.
pub fn tag<T: Copy>(x: Option<T>) -> u64
    ensures { result ≡ tag x }
{
    u64::from(x.is_some())
}
