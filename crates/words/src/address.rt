// The addresses that a 32-bit word can hold: document 01, "Planning transfers" and refusal 11.
ghost use Rattle.std.specs.Prelude.{◌≡◌};
ghost use Rattle.words.specs.Words.{is_beyond};

// Whether a buffer reaches beyond what the controller can address. Only a buffer that lies whole within it may be handed over.
pub fn is_beyond(base: u64, bytes: u64) -> bool
    ensures { result ≡ is_beyond base bytes }
{
    base.saturating_add(bytes) > 4_294_967_295
}
