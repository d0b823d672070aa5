// The write port. The host has the one port and lends it to every call, which updates it there, as with the DAC's running record (dac_face).
// Every call leaves kept bits only, whatever was there before.
ghost use Rattle.std.specs.Prelude.{◌≡◌};
ghost use Rattle.port.specs.Port.{fresh_port, address_written, attribute_written, character_written};

use port::Port;

#[unsafe(no_mangle)]
pub extern "C" fn dirgeflint_port_reset(port: &mut Port)
    ensures { port.new ≡ fresh_port }
{
    *port = Port::fresh();
}

#[unsafe(no_mangle)]
pub extern "C" fn dirgeflint_port_write_address(port: &mut Port, byte: u8)
    ensures { port.new ≡ address_written port.old byte }
{
    port.write_address(byte);
}

#[unsafe(no_mangle)]
pub extern "C" fn dirgeflint_port_write_attribute(port: &mut Port, byte: u8)
    ensures { port.new ≡ attribute_written port.old byte }
{
    port.write_attribute(byte);
}

#[unsafe(no_mangle)]
pub extern "C" fn dirgeflint_port_write_character(port: &mut Port, byte: u8)
    ensures { port.new ≡ character_written port.old byte }
{
    port.write_character(byte);
}
