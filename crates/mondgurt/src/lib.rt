// The calls on a node, for C to link: include/mondgurt.h declares them and says what each does. A slice passes as a pointer and then a length.
#![tactic(auto)]

ghost use Rattle.std.specs.Prelude.{not, eqb};
ghost use Rattle.calls.specs.Relations.{send, invalidate, assemble, consumed, read_flag, deliver, close, receive};
ghost use Rattle.calls.specs.Relations.{nothing, buffer as a_buffer, flag as a_flag, value as a_value, sees, Does, Loads};

// MONDGURT_NODE bytes, written out and not `store::Node`: tools/exports reads the size here.
type Node = [u8; 2851];

#[unsafe(no_mangle)]
pub extern "C" fn mondgurt_load(node: &mut Node, file: &[u8]) -> u32
    ensures { Loads node.old file.now result node.new }
{
    node::load(node, file)
}

#[unsafe(no_mangle)]
pub extern "C" fn mondgurt_send(node: &mut Node, message: u64, value: i64) -> u8
    ensures { Does node.old (send message value) (sees result nothing) node.new }
{
    node::send(node, message, value)
}

#[unsafe(no_mangle)]
pub extern "C" fn mondgurt_invalidate(node: &mut Node, message: u64) -> u8
    ensures { Does node.old (invalidate message) (sees result nothing) node.new }
{
    node::invalidate(node, message)
}

#[unsafe(no_mangle)]
pub extern "C" fn mondgurt_assemble(node: &mut Node, frame: u64, buffer: &mut [u8]) -> u8
    ensures { Does node.old (assemble frame buffer.old) (sees result (a_buffer buffer.new)) node.new }
{
    node::assemble(node, frame, buffer)
}

#[unsafe(no_mangle)]
pub extern "C" fn mondgurt_consumed(node: &mut Node, frame: u64) -> u8
    ensures { Does node.old (consumed frame) (sees result nothing) node.new }
{
    node::consumed(node, frame)
}

#[unsafe(no_mangle)]
pub extern "C" fn mondgurt_read_flag(node: &Node, message: u64, flag: &mut u8) -> u8
    ensures { Does node.now (read_flag message flag.old) (sees result (a_flag flag.new)) node.now }
{
    node::read_flag(node, message, flag)
}

#[unsafe(no_mangle)]
pub extern "C" fn mondgurt_deliver(node: &mut Node, frame: u64, valid: u8, bytes: &[u8]) -> u8
    ensures { Does node.old (deliver frame (not (eqb valid 0)) bytes.now) (sees result nothing) node.new }
{
    node::deliver(node, frame, valid != 0, bytes)
}

#[unsafe(no_mangle)]
pub extern "C" fn mondgurt_close(node: &mut Node) -> u8
    ensures { Does node.old close (sees result nothing) node.new }
{
    node::close(node)
}

#[unsafe(no_mangle)]
pub extern "C" fn mondgurt_receive(node: &Node, message: u64, value: &mut i64) -> u8
    ensures { Does node.now (receive message value.old) (sees result (a_value value.new)) node.now }
{
    node::receive(node, message, value)
}
