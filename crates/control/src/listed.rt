// The numbers that stop lists, written into the host's list.
ghost use Rattle.std.specs.Prelude.{◌++◌, ◌≡◌, ◌≤◌, length, drop};

// Internal: writes the numbers into the list, whose rest stays as it was.
pub fn write_list(numbers: &[u8], list: &mut [usize])
    requires { length numbers.now ≤ length list.old }
    ensures { list.new ≡ numbers.now ++ drop (length numbers.now) list.old }
{
    for (k, &number) in numbers.iter().enumerate() {
        list[k] = usize::from(number);
    }
}
