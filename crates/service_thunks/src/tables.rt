ghost use Rattle.std.specs.Prelude.{◌≡◌, ◌≤◌, length};
ghost use Rattle.fw_types.specs.Layout.{put_all};
ghost use Rattle.service_thunks.specs.Services.{boot_services};
ghost use Rattle.service_thunks.specs.Tables.{boot_table as boot_table_bytes, header_fields, service_fields, system_table as system_table_bytes};

use fw_types::{put_u32, put_u64};
use guest_memory::address_map::{BOOT_SERVICES, BOOT_TABLE, SYSTEM_TABLE};

/// The signature of the system table: 'IBI SYST', lowest byte first.
const SYSTEM_SIGNATURE: u64 = 0x5453_5953_2049_4249;

/// The signature of the boot services table: 'BOOTSERV', lowest byte first.
const BOOT_SIGNATURE: u64 = 0x5652_4553_544f_4f42;

/// The revision of both tables: UEFI 2.8.
const REVISION: u32 = 0x0002_0050;

/// The system table (UEFI 2.8, 4.3: EFI System Table), and the 8 zero bytes after it, of which the
/// first two are the vendor's empty name. Takes no memory.
pub fn system_table() -> [u8; 128]
    ensures { result ≡ system_table_bytes }
{
    let mut table = [0; 128];
    put_header(&mut table, SYSTEM_SIGNATURE, 120);
    put_u64(&mut table, 24, SYSTEM_TABLE + 120);
    put_u32(&mut table, 32, 1);
    put_u64(&mut table, 96, BOOT_TABLE);
    table
}

/// The boot services table: its header, and the address of each service (UEFI 2.8, 4.4: EFI Boot
/// Services Table). Takes no memory.
pub fn boot_table() -> [u8; 376]
    ensures { result ≡ boot_table_bytes }
{
    let mut table = [0; 376];
    put_header(&mut table, BOOT_SIGNATURE, 376);
    put_services(&mut table);
    table
}

/// Puts a table's header at its beginning (UEFI 2.8, 4.2: EFI Table Header): its signature, the
/// revision, its size in bytes, and no CRC.
fn put_header(table: &mut [u8], signature: u64, size: u32)
    requires { 24 ≤ length table.old }
    ensures { table.new ≡ put_all (header_fields signature size) table.old }
{
    put_u64(table, 0, signature);
    put_u32(table, 8, REVISION);
    put_u32(table, 12, size);
    put_u32(table, 16, 0);
    put_u32(table, 20, 0);
}

/// Puts the address of each boot service into the table.
fn put_services(table: &mut [u8])
    requires { length table.old ≡ 376 }
    ensures { table.new ≡ put_all (service_fields boot_services) table.old }
{
    for place in 0..44 {
        let offset = 24 + 8 * place;
        put_u64(table, offset, BOOT_SERVICES + offset as u64);
    }
}
