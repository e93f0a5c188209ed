// The interface's version, as a name that the linker looks for. include/hewnspandrel.h and the Rust crate refer to it, so that an archive
// with another interface does not link with them. A landing that changes what the functions take or answer raises the number: here, in the
// header (HEWN_INTERFACE), in rust/src/foreign.rs and in rust/build.rs.
ghost use Rattle.std.specs.Prelude.{◌≡◌};

#[unsafe(no_mangle)]
pub extern "C" fn hewn_interface_3() -> u64
    ensures { result ≡ 3 }
{
    3
}
