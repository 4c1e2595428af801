// Triangles: the lower half of a symmetric matrix, row i, columns 0 to i, rows rising.
ghost use Rattle.std.specs.Prelude.{◌≡◌, ◌≤◌};
ghost use Rattle.spec_protocol.specs.Parameters.{triangular};

// "T = r(r+1)/2": the cells of a triangle of r rows.
pub fn cells(r: usize) -> usize
    requires { r ≤ 64 }
    ensures { result ≡ triangular r }
{
    r * (r + 1) / 2
}
