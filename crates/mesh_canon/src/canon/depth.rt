// How deep the nodes of a text nest.

/// Nodes that may be open round a place of a text that is read. An expression of a project's definition has at most
/// 4,096 nodes.
const MOST_OPEN: u32 = 4_200;

/// Whether more nodes than that are open somewhere. Bytes of texts count for nothing.
pub(crate) fn is_too_deep(text: &[u8]) -> bool {
    let mut open = 0u32;
    let mut length = 0usize;
    let mut skipped = 0usize;
    for byte in text {
        if skipped > 0 {
            skipped = skipped.saturating_sub(1);
            continue;
        }
        match *byte {
            b'0'..=b'9' => {
                let digit = usize::from(byte.saturating_sub(b'0'));
                length = length.saturating_mul(10).saturating_add(digit);
            }
            b':' => {
                skipped = length;
                length = 0;
            }
            b'(' => {
                open = open.saturating_add(1);
                length = 0;
            }
            b')' => {
                open = open.saturating_sub(1);
                length = 0;
            }
            _ => length = 0,
        }
        if open > MOST_OPEN {
            return true;
        }
    }
    false
}
