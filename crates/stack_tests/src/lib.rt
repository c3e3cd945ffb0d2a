//! Tests of the stack over three kinds of element: operands, state codes and search frames.
#![tactic(auto)]

#[cfg(test)]
mod tests {
    use stack::Stack;

    // A state and the next command to try there.
    #[derive(Clone, Copy, Debug, PartialEq, Eq)]
    struct Frame {
        state: u32,
        next: u8,
    }

    #[test]
    fn operands(rt: HostRuntime) {
        let mut room = [0i32; 2];
        let mut stack = Stack::new(&mut room);
        assert!(rt; stack.is_empty());
        assert_eq!(rt; stack.pop(), None);
        assert_eq!(rt; stack.push(-5), Ok(()));
        assert_eq!(rt; stack.push(7), Ok(()));
        assert_eq!(rt; stack.push(9), Err(9));
        assert_eq!(rt; stack.len(), 2);
        assert_eq!(rt; stack.pop(), Some(7));
        assert_eq!(rt; stack.pop(), Some(-5));
        assert_eq!(rt; stack.pop(), None);
        assert_eq!(rt; stack.len(), 0);
    }

    #[test]
    fn states(rt: HostRuntime) {
        let mut room = [9u32; 3];
        let mut stack = Stack::new(&mut room);
        assert_eq!(rt; stack.places(), 3);
        assert_eq!(rt; stack.push(65535), Ok(()));
        assert_eq!(rt; stack.push(0), Ok(()));
        assert_eq!(rt; stack.top(), Some(0));
        assert_eq!(rt; stack.replace_top(17), Some(0));
        assert_eq!(rt; stack.len(), 2);
        assert_eq!(rt; stack.pop(), Some(17));
        assert_eq!(rt; stack.top(), Some(65535));
        assert!(rt; !stack.is_empty());
    }

    #[test]
    fn frames(rt: HostRuntime) {
        let first = Frame { state: 4, next: 0 };
        let second = Frame { state: 5, next: 2 };
        let mut room = [first; 1];
        let mut stack = Stack::new(&mut room);
        assert_eq!(rt; stack.replace_top(first), None);
        assert_eq!(rt; stack.top(), None);
        assert_eq!(rt; stack.push(first), Ok(()));
        assert_eq!(rt; stack.push(second), Err(second));
        assert_eq!(rt; stack.replace_top(second), Some(first));
        assert_eq!(rt; stack.pop(), Some(second));
        assert_eq!(rt; stack.pop(), None);
    }

    #[test]
    fn no_room(rt: HostRuntime) {
        let mut room = [0u32; 0];
        let mut stack = Stack::new(&mut room);
        assert_eq!(rt; stack.push(1), Err(1));
        assert_eq!(rt; stack.pop(), None);
        assert_eq!(rt; stack.places(), 0);
    }
}
