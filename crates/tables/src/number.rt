// The numbers of a line and of a table: of 32 bits in the transform, of 16 in its inverse.
ghost use Rattle.std.specs.Prelude.{◌≡◌, ℤ};

pub trait Number: Copy {
    ghost value: { Self → ℤ };

    fn wide(self) -> i32
        ensures { result ≡ value self };
}

impl Number for i32 {
    ghost value = { λ z. z };

    fn wide(self) -> i32 {
        self
    }
}

impl Number for i16 {
    ghost value = { λ z. z };

    fn wide(self) -> i32 {
        i32::from(self)
    }
}
