// Which library this is: rule C-25. A host compares the answers with its header's JIHFASUL_VERSION and JIHFASUL_STATE_LAYOUT.
ghost use Rattle.std.specs.Prelude.{◌≡◌};
ghost use Rattle.node.specs.Version.{version, state_layout};

// The library's version.
pub fn jihfasul_version() -> u32
    ensures { result ≡ version }
{
    10000
}

// The version of the state's layout, to be kept beside a stored state.
pub fn jihfasul_state_layout() -> u32
    ensures { result ≡ state_layout }
{
    1
}
