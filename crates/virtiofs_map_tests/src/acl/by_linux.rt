//! Values that Linux itself wrote, as `tests/values_by_linux.sh` of the repository had it write
//! them (Linux 6.18, ext4, setfacl 2.3.1, setcap 2.66). Each number is four bytes, in their order.

/// Two values of one attribute: one with ids of the guest, and one with the ids that they are on
/// the host under `map:0:100000:65536` for users and `map:0:200000:65536` for groups. The same
/// command wrote both, with the ids of either side.
pub(super) type Pair = (&'static [u32], &'static [u32]);

pub(super) static LISTS: [Pair; 4] = [
    (
        // setfacl -m u:1000:rw file
        // setfacl -m u:101000:rw file
        &[
            0x02000000, 0x01000600, 0xffffffff, 0x02000600, 0xe8030000, 0x04000400, 0xffffffff,
            0x10000600, 0xffffffff, 0x20000000, 0xffffffff,
        ],
        &[
            0x02000000, 0x01000600, 0xffffffff, 0x02000600, 0x888a0100, 0x04000400, 0xffffffff,
            0x10000600, 0xffffffff, 0x20000000, 0xffffffff,
        ],
    ),
    (
        // setfacl -m u:0:r,u:1000:rwx,u:65535:-,g:50:rx,g:1000:w file
        // setfacl -m u:100000:r,u:101000:rwx,u:165535:-,g:200050:rx,g:201000:w file
        &[
            0x02000000, 0x01000600, 0xffffffff, 0x02000400, 0x00000000, 0x02000700, 0xe8030000,
            0x02000000, 0xffff0000, 0x04000400, 0xffffffff, 0x08000500, 0x32000000, 0x08000200,
            0xe8030000, 0x10000700, 0xffffffff, 0x20000000, 0xffffffff,
        ],
        &[
            0x02000000, 0x01000600, 0xffffffff, 0x02000400, 0xa0860100, 0x02000700, 0x888a0100,
            0x02000000, 0x9f860200, 0x04000400, 0xffffffff, 0x08000500, 0x720d0300, 0x08000200,
            0x28110300, 0x10000700, 0xffffffff, 0x20000000, 0xffffffff,
        ],
    ),
    (
        // setfacl -d -m u:1000:rwx,g:50:rx folder
        // setfacl -d -m u:101000:rwx,g:200050:rx folder
        &[
            0x02000000, 0x01000700, 0xffffffff, 0x02000700, 0xe8030000, 0x04000500, 0xffffffff,
            0x08000500, 0x32000000, 0x10000700, 0xffffffff, 0x20000000, 0xffffffff,
        ],
        &[
            0x02000000, 0x01000700, 0xffffffff, 0x02000700, 0x888a0100, 0x04000500, 0xffffffff,
            0x08000500, 0x720d0300, 0x10000700, 0xffffffff, 0x20000000, 0xffffffff,
        ],
    ),
    (
        // touch folder/file, in the folder of the row before
        &[
            0x02000000, 0x01000600, 0xffffffff, 0x02000700, 0xe8030000, 0x04000500, 0xffffffff,
            0x08000500, 0x32000000, 0x10000600, 0xffffffff, 0x20000000, 0xffffffff,
        ],
        &[
            0x02000000, 0x01000600, 0xffffffff, 0x02000700, 0x888a0100, 0x04000500, 0xffffffff,
            0x08000500, 0x720d0300, 0x10000600, 0xffffffff, 0x20000000, 0xffffffff,
        ],
    ),
];

pub(super) const CAPABILITIES: [Pair; 1] = [(
    // setcap -n 1000 cap_net_bind_service=+ep file
    &[
        0x01000003, 0x00040000, 0x00000000, 0x00000000, 0x00000000, 0xe8030000,
    ],
    // setcap -n 101000 cap_net_bind_service=+ep file
    &[
        0x01000003, 0x00040000, 0x00000000, 0x00000000, 0x00000000, 0x888a0100,
    ],
)];

/// Values of revision 2.
pub(super) const REVISION_2: [&[u32]; 2] = [
    // setcap cap_net_bind_service=+ep file
    &[0x01000002, 0x00040000, 0x00000000, 0x00000000, 0x00000000],
    // setcap cap_setfcap,cap_checkpoint_restore=+ip file
    &[0x00000002, 0x00000080, 0x00000080, 0x00010000, 0x00010000],
];
