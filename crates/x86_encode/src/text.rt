ghost use Rattle.std.specs.Prelude.{◌≤◌};

/// At most sixteen bytes: the first `len` of `bytes`.
#[derive(Clone, Copy)]
pub(crate) struct Text {
    pub bytes: [u8; 16],
    pub len: usize,
    ghost within: { len ≤ 16 },
}
