// Several operations in one situation.
use crate::call::Call;
use crate::named::P409600;

// The three that need the block's owner.
pub(crate) fn owners(client: u32, id: u64, now: u64) -> [Call; 3] {
    [
        Call::Destroy { client, id, now },
        Call::Replace {
            client,
            id,
            now,
            buffer: 528,
        },
        Call::SetExpiry {
            client,
            id,
            now,
            expiry: 500,
        },
    ]
}

// The four that change the store and are about one block.
pub(crate) fn changing(client: u32, id: u64, now: u64) -> [Call; 4] {
    let [destroy, replace, set_expiry] = owners(client, id, now);
    let create = Call::Create {
        client,
        now,
        expiry: 500,
        buffer: 528,
    };
    [create, destroy, replace, set_expiry]
}

// The five that name a block by its id.
pub(crate) fn naming(client: u32, id: u64, now: u64) -> [Call; 5] {
    let [destroy, replace, set_expiry] = owners(client, id, now);
    let read = Call::Read {
        client,
        id,
        buffer: 528,
    };
    let status = Call::Status { client, id };
    [read, status, destroy, replace, set_expiry]
}

// The three that are lent a data buffer.
pub(crate) fn lending(client: u32, id: u64, now: u64, buffer: usize) -> [Call; 3] {
    [
        Call::Create {
            client,
            now,
            expiry: 500,
            buffer,
        },
        Call::Read { client, id, buffer },
        Call::Replace {
            client,
            id,
            now,
            buffer,
        },
    ]
}

// All seven on one block, by a client above 63.
pub(crate) fn seven() -> [Call; 7] {
    let client = 64;
    let id = P409600;
    let now = 102;
    let [create, destroy, replace, set_expiry] = changing(client, id, now);
    let read = Call::Read {
        client,
        id,
        buffer: 528,
    };
    let status = Call::Status { client, id };
    let get_count = Call::GetCount { client };
    [
        create, read, status, destroy, replace, set_expiry, get_count,
    ]
}
