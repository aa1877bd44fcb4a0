// What a host asks before any other call: the version of the interface, and the size of the record.
ghost use Rattle.std.specs.Prelude.{◌≡◌};
ghost use Rattle.region_host.specs.Version.{interface_version, record_size};

#[unsafe(no_mangle)]
pub extern "C" fn region_interface_version() -> u32
    ensures { result ≡ interface_version }
{
    region_host::region_interface_version()
}

#[unsafe(no_mangle)]
pub extern "C" fn region_record_size() -> usize
    ensures { result ≡ record_size }
{
    region_host::region_record_size()
}
