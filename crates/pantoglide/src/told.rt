// What callers in C are told of a call: 0, or the number of its refusal.
ghost use Rattle.std.specs.Prelude.{◌≡◌};
ghost use Rattle.refusals.specs.Refusal.{refusal_in};

use refusals::Refusal;

pub(crate) fn told(answer: Result<(), Refusal>) -> u8
    ensures { result ≡ refusal_in answer }
{
    match answer {
        Ok(()) => 0,
        Err(refusal) => u8::from(refusal),
    }
}
